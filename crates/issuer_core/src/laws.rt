//! What the definitions say together. Each law of digests holds for every way
//! to make texts and digests.
ghost use Rattle.std.specs.Prelude.{◌≡◌, ◌≢◌, ℕ, List};
ghost use Rattle.file_members.specs.declared.file_fault.FileFault.{FileFault};
ghost use Rattle.issuer_core.specs.Order.{order_of};
ghost use Rattle.issuer_core.specs.OrderFile.{IsOrderFile, IsOrderFileRefused};
ghost use Rattle.issuer_core.specs.UnsignedOrder.{IsUnsignedOrderFile, IsUnsignedOrderRefused};
ghost use Rattle.issuer_core.specs.declared.order.Order as code;
ghost use Rattle.issuer_core.specs.declared.order_file.IssueFile.{IssueFile};
ghost use Rattle.issuer_core.specs.Laws.{LaidIsIssued, PartsAreIssued, SignedIsIssued, LaidIsReadable, IssuedIsSound, IssuedIsShown, OneToken};

use hmac_sign::Signatures;

/// A file says one order and one key or is refused, and has one fault beside want of memory.
pub fn one_order()
    ensures one { (bytes : List ℕ) (said other : IssueFile) → IsOrderFile bytes said
        → IsOrderFile bytes other
        → (order_of said.order ≡ order_of other.order) × (said.key ≡ other.key) }
    ensures not_both { (bytes : List ℕ) (said : IssueFile) (fault : FileFault)
        → IsOrderFile bytes said → IsOrderFileRefused bytes fault → fault ≡ FileFault.Memory }
    ensures one_fault { (bytes : List ℕ) (fault other : FileFault) → IsOrderFileRefused bytes fault
        → IsOrderFileRefused bytes other → fault ≢ FileFault.Memory → other ≢ FileFault.Memory
        → fault ≡ other }
{}

/// The same of a file without a key, for who signs elsewhere.
pub fn one_unsigned_order()
    ensures one { (bytes : List ℕ) (order other : code.Order) → IsUnsignedOrderFile bytes order
        → IsUnsignedOrderFile bytes other → order_of order ≡ order_of other }
    ensures not_both { (bytes : List ℕ) (order : code.Order) (fault : FileFault)
        → IsUnsignedOrderFile bytes order → IsUnsignedOrderRefused bytes fault
        → fault ≡ FileFault.Memory }
    ensures one_fault { (bytes : List ℕ) (fault other : FileFault)
        → IsUnsignedOrderRefused bytes fault → IsUnsignedOrderRefused bytes other
        → fault ≢ FileFault.Memory → other ≢ FileFault.Memory → fault ≡ other }
{}

/// Where the digests all differ, what is laid for a good order is issued for it.
pub fn laid_is_issued()
    ensures { LaidIsIssued }
{}

/// The same of the parts, with a signature that is good, whatever signatures are, and by an
/// algorithm of any name: where the digests all differ, the parts of what is laid for an order that
/// nothing of 51 to 59 refuses are issued for it.
pub fn parts_are_issued<S: Signatures>()
    ensures { (signer : S) (alg : List ℕ) → PartsAreIssued alg (S.good signer) }
{}

/// The same in two steps: what is to be signed for an order that can be written is issued for it,
/// once a signature that is good is put to it.
pub fn signed_is_issued<S: Signatures>()
    ensures { (signer : S) (alg : List ℕ) → SignedIsIssued alg (S.good signer) }
{}

/// The members of each object that is laid ascend by the bytes of their names.
pub fn laid_is_readable()
    ensures { LaidIsReadable }
{}

/// What is issued for a good order is sound: no condition of 14 to 21 fails.
pub fn issued_is_sound()
    ensures { IssuedIsSound }
{}

/// Of a token that is issued for a good order, the disclosures on the way to wanted paths are
/// sound, and show the claims without what is hidden and leads to none of these paths.
pub fn issued_is_shown()
    ensures { IssuedIsShown }
{}

/// With a key an order and a seed have one token.
pub fn one_token()
    ensures { OneToken }
{}
