// The parts of a token in compact form, where they stand in its text.
ghost use Rattle.std.specs.Prelude.{◌≡◌, ◌↔◌, ◌^◌, ◌<◌, ◌++◌, length, take, IfOk, IfErr, IfSome, IsTrue};
ghost use Rattle.std.specs.Option.{option_map};
ghost use Rattle.std.specs.Iterator.{YieldsFirstBy, item_count};
ghost use Rattle.compact_form.specs.Compact.{hashed as hashed_of, ending, HasWords, IsCompact, IsMisformedAt};
ghost use Rattle.compact_form.specs.Views.{jwt_of};
ghost use Rattle.compact_form.specs.Reading.{Gathered};

use crate::field::Field;
use crate::reader::{At, Reader, text_of};
use crate::{JwtParts, Parts};
use b64url_text::is_word;
use memchr::memchr;
use sd_outside::{NoMemory, TextBox, TextList};
use std::alloc::Global;
use std::marker::Model;

/// The three texts of a JWT, borrowed from the text in which they stand.
#[derive(Clone, Copy, Debug)]
pub struct JwtView<'a> {
    pub protected: &'a str,
    pub payload: &'a str,
    pub signature: &'a str,
}

impl<'a> JwtView<'a> {
    // Whether each text is a base64url word.
    pub(crate) fn has_words(&self) -> bool
        ensures { IsTrue result ↔ HasWords (jwt_of self.now) }
    {
        is_word(self.protected.as_bytes())
            && is_word(self.payload.as_bytes())
            && is_word(self.signature.as_bytes())
    }

    /// A copy of the texts.
    pub fn to_parts(&self, alloc: Global) -> Result<JwtParts, NoMemory>
        ensures { IfOk result (λ parts. parts ≡ jwt_of self.now) }
    {
        Ok(JwtParts {
            protected: TextBox::make(alloc, self.protected)?,
            payload: TextBox::make(alloc, self.payload)?,
            signature: TextBox::make(alloc, self.signature)?,
        })
    }
}

/// The parts of a compact text, borrowed from it. Contracts see the parts.
#[derive(Debug, Drop)]
pub struct View<'a> {
    signed: JwtView<'a>,
    disclosures: &'a str,
    count: usize,
    hashed: &'a str,
    binding: Option<JwtView<'a>>,
}

impl<'a> Model for View<'a> {
    ghost use Rattle.compact_form.specs.declared.parts.Parts.{Parts};
    ghost use Rattle.compact_form.specs.Views.{parts_of, AreSpelled};

    ghost Value = { Parts };

    ghost view = { λ v. parts_of v.signed v.disclosures.now v.binding };

    ghost invariant = { λ v. AreSpelled v.signed v.disclosures.now v.count v.hashed.now };
}

/// The disclosures of a compact text that are still to come. Contracts see the list of them.
#[derive(Debug, Drop)]
pub struct Pieces<'a> {
    rest: &'a str,
}

impl<'a> Model for Pieces<'a> {
    ghost use Rattle.std.specs.Prelude.{List, ℕ};
    ghost use Rattle.compact_form.specs.Views.{pieces_of, IsSpelled};

    ghost Value = { List (List ℕ) };

    ghost view = { λ p. pieces_of p.rest.now };

    ghost invariant = { λ p. IsSpelled p.rest.now };
}

// What is read of a text: the JWT at its front, where the disclosures begin and
// end, and their number.
#[derive(Clone, Copy, Drop)]
struct Front<'a> {
    signed: JwtView<'a>,
    from: usize,
    end: usize,
    count: usize,
}

impl<'a> Front<'a> {
    // The view of a text that ends with the disclosures, or with this key
    // binding token behind them.
    fn view(self, text: &'a [u8], binding: Option<JwtView<'a>>) -> View<'a>
        requires gathered { Gathered text.now self.from self.end self.count (jwt_of self.signed) }
        requires words { IfSome (option_map jwt_of binding) HasWords }
        requires ends { text.now ≡ take self.end text.now ++ ending (option_map jwt_of binding) }
        ensures { IsCompact result text.now }
    {
        let hashed = text_of(&text[..self.end]);
        View {
            signed: self.signed,
            disclosures: &hashed[self.from..],
            count: self.count,
            hashed,
            binding,
        }
    }
}

impl<'a> View<'a> {
    /// The parts that a compact text spells. It takes no memory, and reads the text once.
    pub fn scan(text: &'a [u8]) -> Result<View<'a>, At>
        ensures ok { IfOk result (λ view. IsCompact view text.now) }
        ensures err { IfErr result (λ at. IsMisformedAt text.now at.0) }
    {
        let mut reader = Reader { text, at: 0 };
        let signed = reader.signed()?;
        let mut front = Front {
            signed,
            from: reader.at,
            end: reader.at,
            count: 0,
        };
        while reader.at < text.len() {
            let word = reader.word(Field::Piece)?;
            match reader.next(Field::Piece)? {
                Field::Piece => {
                    front.end = reader.at;
                    front.count += 1;
                }
                _ => {
                    let binding = reader.bound(word)?;
                    return Ok(front.view(text, Some(binding)));
                }
            }
        }
        Ok(front.view(text, None))
    }

    /// The issuer's JWT.
    pub fn signed(&self) -> JwtView<'a>
        ensures { jwt_of result ≡ self.now.signed }
    {
        self.signed
    }

    /// The disclosures, in their order.
    pub fn pieces(&self) -> Pieces<'a>
        ensures value { result ≡ self.now.disclosures }
        ensures countable { length result < 2 ^ 64 }
    {
        // the number that is read here bounds the list
        let _count = self.count;
        Pieces {
            rest: self.disclosures,
        }
    }

    /// The number of disclosures.
    pub fn count(&self) -> usize
        ensures { result ≡ length self.now.disclosures }
    {
        self.count
    }

    /// The key binding token, where there is one.
    pub fn binding(&self) -> Option<JwtView<'a>>
        ensures { option_map jwt_of result ≡ self.now.binding }
    {
        self.binding
    }

    /// The text up to and with its last tilde, which a key binding token hashes
    /// (RFC 9901 section 4.3.1).
    pub fn hashed(&self) -> &'a str
        ensures { result.now ≡ hashed_of self.now }
    {
        self.hashed
    }

    /// Another view of the same text.
    pub fn copy(&self) -> View<'a>
        ensures { result ≡ self.now }
    {
        View {
            signed: self.signed,
            disclosures: self.disclosures,
            count: self.count,
            hashed: self.hashed,
            binding: self.binding,
        }
    }

    /// A copy of the parts.
    pub fn to_parts(&self, alloc: Global) -> Result<Parts, NoMemory>
        ensures { IfOk result (λ parts. parts ≡ self.now) }
    {
        let binding = match self.binding {
            Some(jwt) => Some(jwt.to_parts(alloc)?),
            None => None,
        };
        Ok(Parts {
            signed: self.signed.to_parts(alloc)?,
            disclosures: copy_pieces(alloc, self.pieces())?,
            binding,
        })
    }
}

impl<'a> Iterator for Pieces<'a> {
    type Item = &'a str;

    ghost next_gives = { YieldsFirstBy (λ piece. piece.now) (λ pieces. pieces) };

    ghost remaining = { item_count (λ pieces. pieces) };

    fn next(&mut self) -> Option<&'a str> {
        let end = memchr(b'~', self.rest.as_bytes())?;
        let piece = &self.rest[..end];
        self.rest = &self.rest[end + 1..];
        Some(piece)
    }
}

fn copy_pieces(alloc: Global, pieces: Pieces<'_>) -> Result<TextList, NoMemory>
    ensures { IfOk result (λ copy. copy ≡ pieces.entry) }
{
    let mut copy = TextList::new(alloc);
    for piece in pieces {
        copy.push(TextBox::make(alloc, piece)?)?;
    }
    Ok(copy)
}
