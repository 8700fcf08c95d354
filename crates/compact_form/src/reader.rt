// One walk over a text, word by word.
ghost use Rattle.std.specs.Prelude.{◌≡◌, ◌<◌, ◌++◌, true, false, length, take, IfOk, IfErr, OnOk};
ghost use Rattle.std.specs.Str.{IsAscii};
ghost use Rattle.b64url_text.specs.Base64url.{IsWord};
ghost use Rattle.compact_form.specs.Compact.{IsMisformedAt};
ghost use Rattle.compact_form.specs.Reading.{may_end, BringsTo, EndsWord, OpensField, Signed, Bound};
ghost use Rattle.compact_form.specs.Views.{jwt_of};
ghost use Rattle.compact_form.specs.declared.field.Field.TheVariants.{BindingPayload};

use crate::JwtView;
use crate::field::Field;
use b64url_text::word_len;

/// Where a text is refused: the length of its longest front that begins some
/// compact text, in bytes.
#[derive(Clone, Copy, Debug, PartialEq, Eq)]
pub struct At(pub usize);

pub(crate) fn text_of(bytes: &[u8]) -> &str
    requires { IsAscii bytes.now }
    ensures { result.now ≡ bytes.now }
{
    str::from_utf8(bytes).unwrap()
}

fn word_text(word: &[u8]) -> &str
    requires { IsWord word.now }
    ensures { result.now ≡ word.now }
{
    text_of(word)
}

// A text, and how much of it is read.
#[derive(Drop)]
pub(crate) struct Reader<'a> {
    pub(crate) text: &'a [u8],
    pub(crate) at: usize,
}

impl<'a> Reader<'a> {
    // The word of this field that stands here.
    pub(crate) fn word(&mut self, field: Field) -> Result<&'a [u8], At>
        requires stands { BringsTo self.old.text.now self.old.at (field, false) }
        requires unended { may_end (field, false) ≡ true → self.old.at < length self.old.text.now }
        ensures same { self.new.text ≡ self.old.text }
        ensures word { IfOk result (λ word. IsWord word.now) }
        ensures grows { IfOk result
            (λ word. take self.new.at self.new.text.now
            ≡ take self.old.at self.new.text.now ++ word.now) }
        ensures ends { OnOk result (EndsWord self.new.text.now self.new.at field) }
        ensures err { IfErr result (λ at. IsMisformedAt self.new.text.now at.0) }
    {
        let rest = &self.text[self.at..];
        let len = word_len(rest);
        if len == 0 {
            return Err(At(self.at));
        }
        self.at += len;
        Ok(&rest[..len])
    }

    // The field that the byte behind a word of this one opens.
    pub(crate) fn next(&mut self, field: Field) -> Result<Field, At>
        requires ends { EndsWord self.old.text.now self.old.at field }
        requires unended { may_end (field, true) ≡ false }
        ensures same { self.new.text ≡ self.old.text }
        ensures opens { IfOk result
            (λ next. OpensField self.new.text.now self.old.at self.new.at field next) }
        ensures err { IfErr result (λ at. IsMisformedAt self.new.text.now at.0) }
    {
        if self.at == self.text.len() {
            return Err(At(self.at));
        }
        match field.after(self.text[self.at]) {
            Some(next) => {
                self.at += 1;
                Ok(next)
            }
            None => Err(At(self.at)),
        }
    }

    // The JWT at the front, and the tilde behind it.
    pub(crate) fn signed(&mut self) -> Result<JwtView<'a>, At>
        requires { self.old.at ≡ 0 }
        ensures same { self.new.text ≡ self.old.text }
        ensures ok { IfOk result (λ jwt. Signed self.new.text.now self.new.at (jwt_of jwt)) }
        ensures err { IfErr result (λ at. IsMisformedAt self.new.text.now at.0) }
    {
        let protected = self.word(Field::Protected)?;
        self.next(Field::Protected)?;
        let payload = self.word(Field::Payload)?;
        self.next(Field::Payload)?;
        let signature = self.word(Field::Signature)?;
        self.next(Field::Signature)?;
        Ok(JwtView {
            protected: word_text(protected),
            payload: word_text(payload),
            signature: word_text(signature),
        })
    }

    // The JWT at the end, whose first word and dot are read.
    pub(crate) fn bound(&mut self, protected: &'a [u8]) -> Result<JwtView<'a>, At>
        requires word { IsWord protected.now }
        requires stands { BringsTo self.old.text.now self.old.at (BindingPayload, false) }
        ensures same { self.new.text ≡ self.old.text }
        ensures ok { IfOk result
            (λ jwt. Bound self.new.text.now self.old.at protected.now (jwt_of jwt)) }
        ensures err { IfErr result (λ at. IsMisformedAt self.new.text.now at.0) }
    {
        let payload = self.word(Field::BindingPayload)?;
        self.next(Field::BindingPayload)?;
        let signature = self.word(Field::BindingSignature)?;
        if self.at < self.text.len() {
            return Err(At(self.at));
        }
        Ok(JwtView {
            protected: word_text(protected),
            payload: word_text(payload),
            signature: word_text(signature),
        })
    }
}
