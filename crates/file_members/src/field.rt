// The words of the members of the files that a command reads.
ghost use Rattle.std.specs.Prelude.{◌≡◌};
ghost use Rattle.file_members.specs.FileWords.{field_word};

/// A member of a file that a command reads: a policy, an issue order, a present order.
#[derive(Clone, Copy, Debug, PartialEq, Eq)]
pub enum Field {
    Keys,
    Algs,
    Typ,
    Iss,
    Require,
    Skew,
    Binding,
    Payload,
    Hide,
    Decoys,
    Key,
    Kid,
    Want,
    Never,
    Alg,
    SdAlg,
    Version,
    Equal,
}

impl Field {
    /// Its name in the file, which is the word that is printed.
    pub fn word(self) -> &'static str
        ensures { result.now ≡ field_word self }
    {
        match self {
            Field::Keys => "keys",
            Field::Algs => "algs",
            Field::Typ => "typ",
            Field::Iss => "iss",
            Field::Require => "require",
            Field::Skew => "skew",
            Field::Binding => "binding",
            Field::Payload => "payload",
            Field::Hide => "hide",
            Field::Decoys => "decoys",
            Field::Key => "key",
            Field::Kid => "kid",
            Field::Want => "want",
            Field::Never => "never",
            Field::Alg => "alg",
            Field::SdAlg => "sd_alg",
            Field::Version => "version",
            Field::Equal => "equal",
        }
    }
}
