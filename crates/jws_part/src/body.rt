// Payloads, RFC 7515 section 5 and RFC 7519 section 4.
ghost use Rattle.std.specs.Prelude.{◌≡◌, ◌≤◌, IfOk, IsErrOf};
ghost use Rattle.sd_outside.specs.Limits.{json_depth_max};
ghost use Rattle.b64url_text.specs.Base64url.{b64, Decodes};
ghost use Rattle.claim_tree.specs.Tree.{object, IsOrdered, depth as depth_of};
ghost use Rattle.claim_tree.specs.View.{tree_of};
ghost use Rattle.claim_tree.specs.JsonText.{json_text};
ghost use Rattle.jws_part.specs.Part.{Carries, IsBody, IsNoObject};

use b64url_text::{DecodeError, decode, encode};
use claim_tree::{JsonReader, ReadError, Tree, TreeMap, write};
use sd_outside::{NoMemory, TextBox};
use std::alloc::Global;

/// Why a payload is not read.
#[derive(Clone, Copy, Debug, PartialEq, Eq)]
pub enum BodyError {
    /// There was no memory for the tree.
    Memory,
    /// The text does not decode to a JSON object of whole numbers.
    Unreadable,
}

impl From<NoMemory> for BodyError {
    ghost use Rattle.jws_part.specs.declared.body.BodyError.TheVariants.{Memory};

    ghost from_gives = { λ _ e. e ≡ Memory };

    fn from(_: NoMemory) -> Self {
        BodyError::Memory
    }
}

impl From<DecodeError> for BodyError {
    ghost use Rattle.jws_part.specs.BodySteps.{body_undecoded};

    ghost from_gives = { λ error e. e ≡ body_undecoded error };

    fn from(error: DecodeError) -> Self {
        match error {
            DecodeError::Memory => BodyError::Memory,
            DecodeError::NotBase64 => BodyError::Unreadable,
        }
    }
}

impl From<ReadError> for BodyError {
    ghost use Rattle.jws_part.specs.BodySteps.{body_unread};

    ghost from_gives = { λ error e. e ≡ body_unread error };

    fn from(error: ReadError) -> Self {
        match error {
            ReadError::Memory => BodyError::Memory,
            ReadError::NotJson | ReadError::NotWhole => BodyError::Unreadable,
        }
    }
}

// The members of the object that a text carries.
pub(crate) fn read_object(
    alloc: Global,
    reader: &mut JsonReader,
    part: &str,
) -> Result<TreeMap, BodyError>
    ensures ok { IfOk result (λ ms. Carries part.now (object ms)) }
    ensures ordered { IfOk result (λ ms. IsOrdered (object ms)) }
    ensures depth { IfOk result (λ ms. depth_of (object ms) ≤ json_depth_max) }
    ensures unreadable { IsErrOf result BodyError.Unreadable → IsNoObject part.now }
{
    let bytes = decode(alloc, part.as_bytes())?;
    match reader.read(alloc, bytes.bytes())? {
        Tree::Object(members) => Ok(members),
        _ => Err(BodyError::Unreadable),
    }
}

/// The JSON object that a payload carries: base64url of its JSON text. Of two
/// members of one name the last is kept.
pub fn read_body(alloc: Global, payload: &str) -> Result<Tree, BodyError>
    ensures ok { IfOk result (λ t. IsBody payload.now (tree_of t)) }
    ensures ordered { IfOk result (λ t. IsOrdered (tree_of t)) }
    ensures depth { IfOk result (λ t. depth_of (tree_of t) ≤ json_depth_max) }
    ensures unreadable { IsErrOf result BodyError.Unreadable → IsNoObject payload.now }
{
    read_body_with(alloc, &mut JsonReader::new(alloc), payload)
}

/// The same, by a reader that is lent.
pub fn read_body_with(
    alloc: Global,
    reader: &mut JsonReader,
    payload: &str,
) -> Result<Tree, BodyError>
    ensures ok { IfOk result (λ t. IsBody payload.now (tree_of t)) }
    ensures ordered { IfOk result (λ t. IsOrdered (tree_of t)) }
    ensures depth { IfOk result (λ t. depth_of (tree_of t) ≤ json_depth_max) }
    ensures unreadable { IsErrOf result BodyError.Unreadable → IsNoObject payload.now }
{
    let members = read_object(alloc, reader, payload)?;
    Ok(Tree::Object(members))
}

// The base64url text of a text.
fn part_of(alloc: Global, text: &str) -> Result<TextBox, NoMemory>
    ensures { IfOk result (λ part. Decodes part text.now) }
{
    encode(alloc, text.as_bytes())
}

/// The payload of a tree: base64url of its compact JSON text.
pub fn write_body(alloc: Global, tree: &Tree) -> Result<TextBox, NoMemory>
    ensures ok { IfOk result (λ text. text ≡ b64 (json_text (tree_of tree.now))) }
    ensures back { depth_of (tree_of tree.now) ≤ json_depth_max
        → IfOk result (λ text. Carries text (tree_of tree.now)) }
{
    let text = write(alloc, tree)?;
    part_of(alloc, text.as_str())
}
