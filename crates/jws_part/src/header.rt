// Headers, RFC 7515 section 4.
ghost use Rattle.std.specs.Prelude.{◌≡◌, IfOk, IsErrOf};
ghost use Rattle.std.specs.Option.{option_copied};
ghost use Rattle.b64url_text.specs.Base64url.{b64};
ghost use Rattle.claim_tree.specs.Tree.{object, no_members};
ghost use Rattle.claim_tree.specs.JsonText.{json_text};
ghost use Rattle.jws_part.specs.Header.{HeadersSay, SayNothing, IsHeader, IsHeaderCritical, IsHeaderUnreadable, header_members};

use crate::BodyError;
use crate::body::{read_object, write_body};
use crate::members::{copied, has_crit, put_text, shares_name, text_named};
use claim_tree::{JsonReader, Tree, TreeMap};
use sd_outside::{NoMemory, TextBox};
use std::alloc::Global;

/// The header of a JWS, by the members that are used (RFC 7515 section 4.1).
#[derive(Debug, Drop)]
pub struct Header {
    /// The name of the algorithm of the signature.
    pub alg: TextBox,
    /// The name of the key.
    pub kid: Option<TextBox>,
    /// The type of the whole.
    pub typ: Option<TextBox>,
}

/// Why no header is read.
#[derive(Clone, Copy, Debug, PartialEq, Eq)]
pub enum HeaderError {
    /// There was no memory for it.
    Memory,
    /// The protected header is not read, lacks `alg`, or shares a name with the outer one; or
    /// `alg`, `kid` or `typ` is no text.
    Unreadable,
    /// One of the headers has a member `crit`. No extension is understood.
    Critical,
}

impl From<BodyError> for HeaderError {
    ghost use Rattle.jws_part.specs.HeaderSteps.{unread_header};

    ghost from_gives = { λ error e. e ≡ unread_header error };

    fn from(error: BodyError) -> Self {
        match error {
            BodyError::Memory => HeaderError::Memory,
            BodyError::Unreadable => HeaderError::Unreadable,
        }
    }
}

// A header with copies of these texts.
fn copied_header(
    alloc: Global,
    alg: &TextBox,
    kid: Option<&TextBox>,
    typ: Option<&TextBox>,
) -> Result<Header, NoMemory>
    ensures alg { IfOk result (λ header. header.alg ≡ alg.now) }
    ensures kid { IfOk result (λ header. header.kid ≡ option_copied kid.entry) }
    ensures typ { IfOk result (λ header. header.typ ≡ option_copied typ.entry) }
{
    Ok(Header {
        alg: TextBox::make(alloc, alg.as_str())?,
        kid: copied(alloc, kid)?,
        typ: copied(alloc, typ)?,
    })
}

// What the protected members say, with the outer ones beside them.
fn said(alloc: Global, members: &TreeMap, outer: &TreeMap) -> Result<Header, BodyError>
    ensures ok { IfOk result (HeadersSay members.now outer.now) }
    ensures unreadable { IsErrOf result BodyError.Unreadable → SayNothing members.now outer.now }
{
    if shares_name(members, outer) {
        return Err(BodyError::Unreadable);
    }
    let Some(alg) = text_named(members, "alg")? else {
        return Err(BodyError::Unreadable);
    };
    let typ = text_named(members, "typ")?;
    let own_kid = text_named(members, "kid")?;
    let outer_kid = text_named(outer, "kid")?;
    match copied_header(alloc, alg, own_kid.or(outer_kid), typ) {
        Ok(header) => Ok(header),
        Err(_) => Err(BodyError::Memory),
    }
}

/// The header that a protected one carries, base64url of its JSON text, with the members of an
/// outer one beside it (RFC 7515 section 7.2.1).
///
/// `alg` and `typ` are those of the protected header, and `kid` is that of the
/// protected or of the outer one.
pub fn read_header(alloc: Global, protected: &str, outer: &TreeMap) -> Result<Header, HeaderError>
    ensures ok { IfOk result (IsHeader protected.now outer.now) }
    ensures unreadable { IsErrOf result HeaderError.Unreadable
        → IsHeaderUnreadable protected.now outer.now }
    ensures critical { IsErrOf result HeaderError.Critical
        → IsHeaderCritical protected.now outer.now }
{
    read_header_with(alloc, &mut JsonReader::new(alloc), protected, outer)
}

/// The same, by a reader that is lent.
pub fn read_header_with(
    alloc: Global,
    reader: &mut JsonReader,
    protected: &str,
    outer: &TreeMap,
) -> Result<Header, HeaderError>
    ensures ok { IfOk result (IsHeader protected.now outer.now) }
    ensures unreadable { IsErrOf result HeaderError.Unreadable
        → IsHeaderUnreadable protected.now outer.now }
    ensures critical { IsErrOf result HeaderError.Critical
        → IsHeaderCritical protected.now outer.now }
{
    let members = read_object(alloc, reader, protected)?;
    let header = said(alloc, &members, outer)?;
    if has_crit(&members, outer) {
        return Err(HeaderError::Critical);
    }
    Ok(header)
}

// The members that are there.
fn members_of(alloc: Global, header: &Header) -> Result<TreeMap, NoMemory>
    ensures { IfOk result (λ ms. ms ≡ header_members header.now) }
{
    let mut members = TreeMap::new(alloc);
    put_text(alloc, &mut members, "alg", Some(&header.alg))?;
    put_text(alloc, &mut members, "kid", header.kid.as_ref())?;
    put_text(alloc, &mut members, "typ", header.typ.as_ref())?;
    Ok(members)
}

/// The protected header of what is there: base64url of its compact JSON text.
pub fn write_header(alloc: Global, header: &Header) -> Result<TextBox, NoMemory>
    ensures ok { IfOk result (λ part. part ≡ b64 (json_text (object (header_members header.now)))) }

    // it is read as this header
    ensures back { IfOk result (λ part. IsHeader part no_members header.now) }
{
    let members = members_of(alloc, header)?;
    write_body(alloc, &Tree::Object(members))
}
