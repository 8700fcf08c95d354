//! What the definitions of queries and of the wallet say together. Each law holds for every value.
ghost use Rattle.std.specs.Prelude.{◌≡◌, ◌≢◌, ◌⊎◌, ℕ, List};
ghost use Rattle.std.specs.List.{AllZip};
ghost use Rattle.std.specs.Io.KnownBytes.{Appends};
ghost use Rattle.sd_outside.specs.Causes.{Rose};
ghost use Rattle.sd_outside.specs.declared.status.Status.{Status};
ghost use Rattle.file_members.specs.declared.file_fault.FileFault.{FileFault};
ghost use Rattle.cli_parts.specs.Outside.{Outside};
ghost use Rattle.cli_parts.specs.Replies.{Reply, gives};
ghost use Rattle.cli_parts.specs.Told.{IsFileTold};
ghost use Rattle.wallet_core.specs.QueryFile.{IsQueryFile, IsQueryFileRefused};
ghost use Rattle.wallet_core.specs.WalletRun.{WalletAnswers, WalletEnds, IsWallet};
ghost use Rattle.wallet_core.specs.declared.query_file.QueryFile.{QueryFile};

/// A file says one query or is refused, and has one fault beside want of memory.
pub fn one_query()
    ensures one { (bytes : List ℕ) (said other : QueryFile) → IsQueryFile bytes said
        → IsQueryFile bytes other → said ≡ other }
    ensures not_both { (bytes : List ℕ) (said : QueryFile) (fault : FileFault)
        → IsQueryFile bytes said → IsQueryFileRefused bytes fault → fault ≡ FileFault.Memory }
    ensures one_fault { (bytes : List ℕ) (fault other : FileFault) → IsQueryFileRefused bytes fault
        → IsQueryFileRefused bytes other → fault ≢ FileFault.Memory → other ≢ FileFault.Memory
        → fault ≡ other }
{}

/// The definition of a wallet has at most one answer over a query file and token files.
pub fn one_answer()
    ensures { (query_file : List ℕ) (held : List (List ℕ)) (v w : Reply)
        → WalletAnswers query_file held v → WalletAnswers query_file held w → v ≡ w }
{}

/// Where the words are those of a wallet, the cabinet tells its files, the
/// definition gives an answer over them, and neither the cabinet nor `out`
/// failed, that answer was written, or there was no memory.
pub fn completes()
    ensures { (words : List (List ℕ)) (before after : Outside) (status : Status) (query : List ℕ)
        (tokens : List (List ℕ)) (query_file : List ℕ) (held : List (List ℕ)) (answer : List ℕ)
        → IsWallet words query tokens → IsFileTold before.holds query query_file
        → AllZip (IsFileTold before.holds) tokens held
        → WalletAnswers query_file held (gives answer) → (Rose before.faults after.faults → ⊥)
        → (Rose before.out.faults after.out.faults → ⊥) → WalletEnds words before after status
        → ((status ≡ Status.Done) × Appends before.out.written after.out.written answer)
        ⊎ (status ≡ Status.Memory) }
{}
