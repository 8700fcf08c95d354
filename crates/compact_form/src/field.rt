// What the bytes of a compact text belong to.
ghost use Rattle.std.specs.Prelude.{◌≡◌};

// A disclosure and the first text of a key binding token look the same up to the byte behind them.
#[derive(Clone, Copy, Debug, PartialEq, Eq)]
pub(crate) enum Field {
    Protected,
    Payload,
    Signature,
    Piece,
    BindingPayload,
    BindingSignature,
}

impl Field {
    ghost use Rattle.compact_form.specs.Reading.{field_after};

    // The field that a byte opens behind a word of this one.
    pub(crate) fn after(self, byte: u8) -> Option<Field>
        ensures { result ≡ field_after self byte }
    {
        match (self, byte) {
            (Field::Protected, b'.') => Some(Field::Payload),
            (Field::Payload, b'.') => Some(Field::Signature),
            (Field::Signature | Field::Piece, b'~') => Some(Field::Piece),
            (Field::Piece, b'.') => Some(Field::BindingPayload),
            (Field::BindingPayload, b'.') => Some(Field::BindingSignature),
            _ => None,
        }
    }
}
