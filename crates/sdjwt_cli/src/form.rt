// The serializations by their words.
ghost use Rattle.std.specs.Prelude.{◌≡◌};
ghost use Rattle.sdjwt_cli.specs.Forms.{form_of};

/// A serialization of a token: the compact one (RFC 9901 section 4), or a JSON
/// one, flattened or general (section 8).
#[derive(Clone, Copy, Debug)]
pub enum Form {
    /// The compact serialization.
    Compact,
    /// The flattened JSON serialization.
    Flat,
    /// The general JSON serialization.
    General,
}

impl Form {
    // The form of a word.
    pub(crate) fn of(word: &str) -> Option<Form>
        ensures { result ≡ form_of word.now }
    {
        if word == "compact" {
            Some(Form::Compact)
        } else if word == "flat" {
            Some(Form::Flat)
        } else if word == "general" {
            Some(Form::General)
        } else {
            None
        }
    }
}
