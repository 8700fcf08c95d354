// Why a wallet has no answer.
ghost use Rattle.std.specs.Prelude.{◌≡◌};
ghost use Rattle.wallet_core.specs.declared.error.WalletError.TheVariants.{Memory};

use sd_outside::NoMemory;

/// Why no credential is picked.
#[derive(Clone, Copy, Debug, PartialEq, Eq)]
pub enum WalletError {
    /// There was no memory.
    Memory,
    /// 77: no credential that may be used answers the query.
    NoAnswer,
}

impl From<NoMemory> for WalletError {
    ghost from_gives = { λ _ e. e ≡ Memory };

    fn from(_: NoMemory) -> Self {
        WalletError::Memory
    }
}
