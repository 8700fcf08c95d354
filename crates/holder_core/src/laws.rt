//! What the definitions of present orders and of presenting say together. Each
//! law holds for every value.
ghost use Rattle.std.specs.Prelude.{◌≡◌, ◌≢◌, ℕ, List};
ghost use Rattle.file_members.specs.declared.file_fault.FileFault.{FileFault};
ghost use Rattle.compact_form.specs.declared.parts.Parts.{Parts};
ghost use Rattle.hmac_sign.specs.Algs.{alg_text};
ghost use Rattle.hmac_sign.specs.Hmac.{AlgKey, IsGood};
ghost use Rattle.holder_core.specs.Asked.{Asked, AskTheSame};
ghost use Rattle.holder_core.specs.Present.{IsPresented, IsNotPresented};
ghost use Rattle.holder_core.specs.PresentFile.{IsPresentFile, IsPresentFileRefused};
ghost use Rattle.holder_core.specs.UnsignedPresent.{IsUnsignedPresentFile, IsUnsignedPresentRefused};
ghost use Rattle.holder_core.specs.ToSign.{none_good, IsToPresent, IsSentWith, IsSentBy, IsUnsentWith};
ghost use Rattle.holder_core.specs.declared.errors.PresentError.{PresentError};
ghost use Rattle.holder_core.specs.declared.present_file.PresentFile.{PresentFile};
ghost use Rattle.holder_core.specs.declared.present_file.UnsignedPresentFile.{UnsignedPresentFile};
ghost use Rattle.holder_core.specs.declared.signing.UnsignedPresentation.{UnsignedPresentation};

use claim_tree::Path;
use hmac_sign::Signatures;

/// A file says one present order or is refused, and has one fault beside want of memory.
pub fn one_present()
    ensures one { (bytes : List ℕ) (said other : PresentFile) → IsPresentFile bytes said
        → IsPresentFile bytes other → said ≡ other }
    ensures not_both { (bytes : List ℕ) (said : PresentFile) (fault : FileFault)
        → IsPresentFile bytes said → IsPresentFileRefused bytes fault → fault ≡ FileFault.Memory }
    ensures one_fault { (bytes : List ℕ) (fault other : FileFault)
        → IsPresentFileRefused bytes fault → IsPresentFileRefused bytes other
        → fault ≢ FileFault.Memory → other ≢ FileFault.Memory → fault ≡ other }
{}

/// The same of a file without keys, for who checks and signs elsewhere.
pub fn one_unsigned_present()
    ensures one { (bytes : List ℕ) (said other : UnsignedPresentFile)
        → IsUnsignedPresentFile bytes said → IsUnsignedPresentFile bytes other → said ≡ other }
    ensures not_both { (bytes : List ℕ) (said : UnsignedPresentFile) (fault : FileFault)
        → IsUnsignedPresentFile bytes said → IsUnsignedPresentRefused bytes fault
        → fault ≡ FileFault.Memory }
    ensures one_fault { (bytes : List ℕ) (fault other : FileFault)
        → IsUnsignedPresentRefused bytes fault → IsUnsignedPresentRefused bytes other
        → fault ≢ FileFault.Memory → other ≢ FileFault.Memory → fault ≡ other }
{}

/// What is to be signed is presented with each signature that is good, whatever
/// signatures are, or is too long with it.
pub fn signed_is_presented<S: Signatures, F: Fn(&Path) -> bool>()
    ensures presented { (signer : S) (rule : F) (text : List ℕ) (asked : Asked) (alg : List ℕ)
        (now : ℕ) (unsigned : UnsignedPresentation) (signature : List ℕ) (answer : Parts)
        → IsToPresent F.Fn rule text asked alg now unsigned
        → S.good signer unsigned.binding.protected unsigned.binding.payload signature
        → IsSentWith unsigned signature answer
        → IsPresented F.Fn rule text asked alg (S.good signer) now answer }
    ensures refused { (signer : S) (rule : F) (text : List ℕ) (asked : Asked) (alg : List ℕ)
        (now : ℕ) (unsigned : UnsignedPresentation) (signature : List ℕ) (error : PresentError)
        → IsToPresent F.Fn rule text asked alg now unsigned
        → S.good signer unsigned.binding.protected unsigned.binding.payload signature
        → IsUnsentWith unsigned signature error
        → IsNotPresented F.Fn rule text asked alg (S.good signer) now error }
{}

/// What is presented without a signature, or refused before one is made, is so
/// whatever signatures are good.
pub fn unsigned_is_presented<S: Signatures, F: Fn(&Path) -> bool>()
    ensures presented { (signer : S) (rule : F) (text : List ℕ) (asked : Asked) (alg : List ℕ)
        (now : ℕ) (answer : Parts) → IsPresented F.Fn rule text asked alg none_good now answer
        → IsPresented F.Fn rule text asked alg (S.good signer) now answer }
    ensures refused { (signer : S) (rule : F) (text : List ℕ) (asked : Asked) (alg : List ℕ)
        (now : ℕ) (error : PresentError)
        → IsNotPresented F.Fn rule text asked alg none_good now error
        → IsNotPresented F.Fn rule text asked alg (S.good signer) now error }
{}

/// A key of HMAC presents the same bytes in two steps as at once, whoever
/// checked the issuer's signature.
pub fn same_in_two_steps<F: Fn(&Path) -> bool>()
    ensures { (rule : F) (key : AlgKey) (text : List ℕ) (asked other : Asked) (now : ℕ)
        (unsigned : UnsignedPresentation) (answer sent : Parts) → AskTheSame asked other
        → IsPresented F.Fn rule text asked (alg_text key.alg) (IsGood key) now answer
        → IsToPresent F.Fn rule text other (alg_text key.alg) now unsigned
        → IsSentBy unsigned (IsGood key) sent → answer ≡ sent }
{}
