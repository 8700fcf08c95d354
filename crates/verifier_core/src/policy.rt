// The policy of a verifier, and the file that says it.
ghost use Rattle.std.specs.Prelude.{◌≡◌, [], ◌∷◌, codes, IfOk, IfErr, option_map};
ghost use Rattle.sd_outside.specs.Limits.{skew_max};
ghost use Rattle.claim_tree.specs.TreeValues.{IsTexts, IsWholeUpTo, SaysOr};
ghost use Rattle.file_members.specs.FileForms.{optional, found};
ghost use Rattle.file_members.specs.FileRefusals.{IsMemberRefused};
ghost use Rattle.file_members.specs.declared.field.Field.TheVariants.{Algs, Require, Skew};
ghost use Rattle.verifier_core.specs.PolicyFile.{IsPolicyFile, IsPolicyFileRefused};
ghost use Rattle.key_binding.specs.Judged.{binding_rules};
ghost use Rattle.key_binding.specs.JudgedSteps.{rules_seen};
ghost use Rattle.verifier_core.specs.Verdict.{rules_of, demands_of};

use crate::Rules;
use crate::binding_file::binding_member;
use crate::policy_version::{issuers_member, version_member};
use crate::rules::Demands;
use claim_tree::TreeMap;
use compact_form::FILE_MAX;
use file_members::{Field, FileFault, read_members, text_list_member, text_member, whole_member};
use hmac_sign::{KeySet, keys_member};
use key_binding::{BindingPolicy, BindingRules};
use sd_outside::{TextBox, TextList};
use std::alloc::Global;

/// The most seconds by which clocks may differ.
pub const SKEW_MAX: u32 = 3_600;

const FIELDS: [Field; 8] = [
    Field::Version,
    Field::Keys,
    Field::Algs,
    Field::Typ,
    Field::Iss,
    Field::Require,
    Field::Skew,
    Field::Binding,
];

/// What a verifier wants of a token.
#[derive(Drop)]
pub struct Policy {
    /// The keys of the issuers that are trusted.
    pub keys: KeySet,
    /// The algorithms that the header may name, of those that are known. A policy file without
    /// `algs` allows HS256 alone.
    pub algs: TextList,
    /// The type that the header has to name (RFC 7515 section 4.1.9), where one is wanted.
    pub typ: Option<TextBox>,
    /// The issuers of which the payload has to name one (RFC 7519 section
    /// 4.1.1), where one is wanted.
    pub iss: Option<TextList>,
    /// The names of the claims that the processed payload has to have.
    pub require: TextList,
    /// The seconds by which the clocks may differ, at most [`SKEW_MAX`].
    pub skew: u32,
    /// What is wanted of a key binding token, where one is asked for.
    pub binding: Option<BindingPolicy>,
}

impl Policy {
    /// What it asks of a token itself.
    pub fn rules(&self) -> Rules<'_>
        ensures { result ≡ rules_of self.now }
    {
        Rules::of_keys(&self.keys, &self.algs, self.typ.as_ref())
    }

    // What it asks of a token file.
    pub(crate) fn demands(&self) -> Demands<'_>
        ensures { result ≡ demands_of self.now }
    {
        Demands {
            rules: self.rules(),
            iss: self.iss.as_ref(),
            require: &self.require,
            skew: self.skew,
            binding: self.binding_rules(),
        }
    }

    // What it asks of a key binding token, where one is asked for.
    fn binding_rules(&self) -> Option<BindingRules<'_>>
        ensures { option_map rules_seen result ≡ option_map binding_rules self.now.binding }
    {
        match &self.binding {
            Some(binding) => Some(binding.rules()),
            None => None,
        }
    }
}

fn algs_member(alloc: Global, members: &TreeMap) -> Result<TextList, FileFault>
    ensures ok { IfOk result (SaysOr IsTexts (codes "HS256" ∷ []) (found members.now Algs)) }
    ensures refused { IfErr result (IsMemberRefused (optional Algs IsTexts) members.now) }
{
    if let Some(algs) = text_list_member(alloc, members, Field::Algs)? {
        return Ok(algs);
    }
    let mut algs = TextList::new(alloc);
    algs.push(TextBox::make(alloc, "HS256")?)?;
    Ok(algs)
}

fn require_member(alloc: Global, members: &TreeMap) -> Result<TextList, FileFault>
    ensures ok { IfOk result (SaysOr IsTexts [] (found members.now Require)) }
    ensures refused { IfErr result (IsMemberRefused (optional Require IsTexts) members.now) }
{
    match text_list_member(alloc, members, Field::Require)? {
        Some(require) => Ok(require),
        None => Ok(TextList::new(alloc)),
    }
}

fn skew_member(members: &TreeMap) -> Result<u32, FileFault>
    ensures ok { IfOk result (SaysOr (IsWholeUpTo skew_max) 0 (found members.now Skew)) }
    ensures refused { IfErr result
        (IsMemberRefused (optional Skew (IsWholeUpTo skew_max)) members.now) }
{
    match whole_member(members, Field::Skew, SKEW_MAX)? {
        Some(skew) => Ok(skew),
        None => Ok(0),
    }
}

/// The policy that a file says: a JSON object whose one member that it must
/// have is `keys`, a key set.
///
/// `algs` and `require` are lists of texts, `typ` and `iss` texts, and `skew` is a whole number of
/// seconds. Where they are missing, the algorithm is HS256, nothing else is wanted, and the clocks
/// do not differ. `binding` is an object of just `aud` and `nonce`, texts of at most 256 bytes,
/// `keys`, a key set, and `max_age`, a whole number of seconds below 2^32; where it is missing, no
/// key binding token is asked for. Another member is a fault.
///
/// `version` is 1 or 2, and 1 where it is missing. In version 2 `iss` is a list of at least one
/// text, and `aud` one of 1 to 16 texts.
pub fn read_policy(alloc: Global, bytes: &[u8]) -> Result<Policy, FileFault>
    ensures ok { IfOk result (IsPolicyFile bytes.now) }
    ensures refused { IfErr result (IsPolicyFileRefused bytes.now) }
{
    let members = read_members(alloc, bytes, FILE_MAX, &FIELDS)?;
    let version = version_member(&members)?;
    let keys = keys_member(alloc, &members, Field::Keys)?;
    let algs = algs_member(alloc, &members)?;
    let typ = text_member(alloc, &members, Field::Typ)?;
    let iss = issuers_member(alloc, &members, version)?;
    let require = require_member(alloc, &members)?;
    let skew = skew_member(&members)?;
    let binding = binding_member(alloc, &members, version)?;
    Ok(Policy {
        keys,
        algs,
        typ,
        iss,
        require,
        skew,
        binding,
    })
}
