//! Open output pads by what they are called: those with a label by it, and the others by their numbers among themselves.
ghost use Rattle.std.specs.Prelude.{◌≡◌, ◌++◌, ◌∷◌, [], List, None, length, IfOk};
ghost use Rattle.graph_plan.specs.declared.called.PadTable.{PadTable};
ghost use Rattle.graph_plan.specs.Bindings.{Name, name_of, number_after, pad_names};
ghost use Rattle.graph_plan.specs.Places.{pad_called, AreCalled};

use crate::plan::OpenOut;
use av_base::{NoMemory, Text};
use indexmap::IndexMap;
use std::alloc::Global;

/// Open pads by what they are called.
#[derive(Drop)]
pub(crate) struct PadTable<'a> {
    /// The place of the first pad with each label.
    pub(crate) labelled: IndexMap<&'a str, usize>,
    /// The places of the pads without a label, in order.
    pub(crate) numbered: Vec<usize>,
}

impl PadTable<'_> {
    /// A table without pads.
    fn new(alloc: Global) -> Self
        ensures none { (name : Name) → pad_called result name ≡ None }
        ensures numbered { length result.numbered.items ≡ 0 }
    {
        PadTable {
            labelled: IndexMap::new(alloc),
            numbered: Vec::new(alloc),
        }
    }

    /// The place of the first pad with this label, or with this number if there is no label.
    pub(crate) fn find(&self, label: &Option<Text>, number: usize) -> Option<usize>
        ensures { result ≡ pad_called self.now (name_of label.now number) }
    {
        match label {
            Some(label) => self.labelled.get(label.as_str()).copied(),
            None => self.numbered.get(number).copied(),
        }
    }
}

/// Adds the pad at a place.
fn add_pad<'a>(table: &mut PadTable<'a>, pad: &'a OpenOut, place: usize) -> Result<(), NoMemory>
    ensures called { (names : List Name) → length names ≡ place → AreCalled names table.old
        → IfOk result (λ _. AreCalled (names ++ name_of pad.now.label (length table.old.numbered.items) ∷ []) table.new) }
    ensures numbered { IfOk result (λ _. length table.new.numbered.items ≡ number_after pad.now.label (length table.old.numbered.items)) }
{
    let Some(label) = &pad.label else {
        table.numbered.push(place)?;
        return Ok(());
    };
    let label = label.as_str();
    if !table.labelled.contains_key(label) {
        table.labelled.insert(label, place)?;
    }
    Ok(())
}

/// The open pads by what they are called.
pub(crate) fn index_opens<'a>(alloc: Global, pads: &'a [OpenOut]) -> Result<PadTable<'a>, NoMemory>
    ensures { IfOk result (AreCalled (pad_names pads.now)) }
{
    let mut table = PadTable::new(alloc);
    'pads: for (place, pad) in pads.iter().enumerate() {
        add_pad(&mut table, pad, place)?;
    }
    Ok(table)
}
