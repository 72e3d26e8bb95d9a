//! The labels of a text by name.

ghost use Rattle.std.specs.Prelude.{◌≡◌, ◌⊎◌, [], ℕ, List, map, option_map, IfOk, IfErr, OnOk, IfSome};
ghost use Rattle.bpf_text.specs.declared.error.TextError.TheVariants.{DefinedAgain, Memory};
ghost use Rattle.bpf_text.specs.Assembly.{slot_of, redefined};
ghost use Rattle.bpf_text.specs.code.Seen.{label_seen};
ghost use Rattle.bpf_text.specs.code.Chains.{entry_label};
ghost use Rattle.bpf_text.specs.code.Slots.{slots_in, slots_sorted};

use crate::chains::{Added, Chains};
use crate::error::TextError;
use crate::line::Label;
use std::alloc::Global;
use std::collections::BTreeMap;

/// The most labels that are chained.
const MAX_CHAINED: usize = 1_073_741_824;

/// Labels in chains, unless those are long: a text may be written for that.
#[derive(Drop)]
pub enum Names<'a> {
    Chained(Chains<'a>),
    Sorted(BTreeMap<&'a [u8], usize>),
}

impl<'a> Names<'a> {
    /// The slot of a name.
    pub fn slot(&self, name: &[u8]) -> Option<usize>
        ensures { result ≡ slots_in self.now name.now }
    {
        match self {
            Names::Chained(chains) => chains.slot(name),
            Names::Sorted(slots) => slots.get(name).copied(),
        }
    }
}

/// The labels in chains, or none where a chain is long, or the line of the first label whose name stands above.
fn chained<'a>(alloc: Global, labels: &[Label<'a>]) -> Result<Option<Chains<'a>>, TextError>
    ensures ok { IfOk result (λ o. IfSome o (λ c. (map entry_label c.entries.items ≡ map label_seen labels.now) × (redefined [] (map label_seen labels.now) ≡ None))) }
    ensures err { IfErr result (λ e. (e ≡ Memory) ⊎ (option_map DefinedAgain (redefined [] (map label_seen labels.now)) ≡ Some e)) }
{
    if labels.len() > MAX_CHAINED {
        return Ok(None);
    }
    let Ok(mut chains) = Chains::new(alloc, 2 * labels.len() + 1) else {
        return Err(TextError::Memory);
    };
    for label in labels {
        match chains.add(*label) {
            Ok(Added::Behind) => {}
            Ok(Added::Again) => return Err(TextError::DefinedAgain { line: label.line }),
            Ok(Added::Crowded) => return Ok(None),
            Err(_) => return Err(TextError::Memory),
        }
    }
    Ok(Some(chains))
}

/// The slots of the labels by name, or the line of the first label whose name stands above.
fn sorted<'a>(alloc: Global, labels: &[Label<'a>]) -> Result<BTreeMap<&'a [u8], usize>, TextError>
    ensures slots { IfOk result (λ m. (name : List ℕ) → slots_sorted m name ≡ slot_of (map label_seen labels.now) name) }
    ensures unique { OnOk result (redefined [] (map label_seen labels.now) ≡ None) }
    ensures err { IfErr result (λ e. (e ≡ Memory) ⊎ (option_map DefinedAgain (redefined [] (map label_seen labels.now)) ≡ Some e)) }
{
    let mut slots = BTreeMap::new(alloc);
    for label in labels {
        match slots.insert(label.name, label.slot) {
            Ok(None) => {}
            Ok(Some(_)) => return Err(TextError::DefinedAgain { line: label.line }),
            Err(_) => return Err(TextError::Memory),
        }
    }
    Ok(slots)
}

/// The labels by name, or the line of the first label whose name stands above.
pub fn slots_by_name<'a>(alloc: Global, labels: &[Label<'a>]) -> Result<Names<'a>, TextError>
    ensures slots { IfOk result (λ m. (name : List ℕ) → slots_in m name ≡ slot_of (map label_seen labels.now) name) }
    ensures unique { OnOk result (redefined [] (map label_seen labels.now) ≡ None) }
    ensures err { IfErr result (λ e. (e ≡ Memory) ⊎ (option_map DefinedAgain (redefined [] (map label_seen labels.now)) ≡ Some e)) }
{
    match chained(alloc, labels) {
        Ok(Some(chains)) => Ok(Names::Chained(chains)),
        Ok(None) => match sorted(alloc, labels) {
            Ok(slots) => Ok(Names::Sorted(slots)),
            Err(error) => Err(error),
        },
        Err(error) => Err(error),
    }
}
