//! Binding of output files to open output pads.
ghost use Rattle.std.specs.Prelude.{◌≡◌, ◌<◌, ◌^◌, ◌↔◌, ◌++◌, ◌∷◌, [], ℕ, List, Some, true, length, set, IsTrue, IfOk, IfSome, IsNone};
ghost use Rattle.std.specs.List.{slice_get};
ghost use Rattle.graph_plan.specs.Bindings.{Name, name_of, number_after, IsUnmapped, CannotTake, TakesWrong, IsBindFault, IsBound};
ghost use Rattle.av_base.specs.Failures.{IfFault, Gives, Refuses};
ghost use Rattle.av_base.specs.First.{IsFirst};
ghost use Rattle.graph_plan.specs.Places.{pad_called, AreFound, MarksThese, AreLinks};
ghost use Rattle.graph_plan.specs.Arranging.{IsMarked};
ghost use Rattle.graph_plan.specs.declared.called.PadTable.{PadTable};
ghost use Rattle.graph_plan.specs.declared.plan.Edge.{Edge};
ghost use Rattle.graph_plan.specs.declared.plan.Plan.{Plan};
ghost use Rattle.graph_plan.specs.declared.plan.PlanFault.{PlanFault};

use crate::called::{PadTable, index_opens};
use crate::plan::{
    DraftPlan, Edge, Ending, OpenOut, OutputFile, Plan, PlanError, PlanFault, Source, Target,
};
use av_base::{List, Media, NoMemory, Text};
use std::alloc::Global;

/// The number of the next file without a label.
fn next_number(label: &Option<Text>, number: usize) -> usize
    requires { number < usize.MAX }
    ensures { result ≡ number_after label.now number }
{
    match label {
        Some(_) => number,
        None => number + 1,
    }
}

/// The place of the first pad with this label, or with this number if there is no label, if it isn't taken yet.
fn find_free(table: &PadTable, marks: &[bool], label: &Option<Text>, number: usize) -> Option<usize>
    requires { (name : Name) → IfSome (pad_called table.now name) (λ o. o < length marks.now) }
    ensures free { IfSome result (λ o. (pad_called table.now (name_of label.now number) ≡ Some o) × ¬ IsMarked marks.now o) }
    ensures none { IsNone result → (o : ℕ) → pad_called table.now (name_of label.now number) ≡ Some o → IsMarked marks.now o }
{
    let place = table.find(label, number)?;
    if marks[place] {
        return None;
    }
    Some(place)
}

/// What the files take: for each file the place of its pad, and which pads are taken.
#[derive(Drop)]
pub(crate) struct Taken {
    /// The place of each file's pad.
    pub(crate) places: Vec<usize>,
    /// Whether each pad is taken.
    pub(crate) marks: Vec<bool>,
}

impl Taken {
    /// Takes the pad at a place for the next file.
    fn push(&mut self, place: usize) -> Result<(), NoMemory>
        requires { place < length self.old.marks.items }
        ensures places { IfOk result (λ _. self.new.places.items ≡ self.old.places.items ++ place ∷ []) }
        ensures marks { IfOk result (λ _. self.new.marks.items ≡ set self.old.marks.items place true) }
    {
        self.places.push(place)?;
        self.marks[place] = true;
        Ok(())
    }
}

/// The pads that the files take.
fn take_pads(alloc: Global, pads: &[OpenOut], files: &[OutputFile]) -> Result<Taken, PlanError>
    requires { length files.now < 2 ^ 32 }
    ensures found { IfOk result (λ taken. AreFound pads.now files.now taken.places.items) }
    ensures each { IfOk result (λ taken. length taken.places.items ≡ length files.now) }
    ensures marked { IfOk result (λ taken. MarksThese (length pads.now) taken.places.items taken.marks.items) }
    ensures fault { IfFault result (IsBindFault pads.now files.now) }
{
    let table = index_opens(alloc, pads)?;
    let mut taken = Taken {
        places: Vec::new(alloc),
        marks: vec![in alloc; false; pads.len()]?,
    };
    let mut number = 0;
    'files: for (output, file) in files.iter().enumerate() {
        let Some(place) = find_free(&table, taken.marks.as_slice(), &file.label, number) else {
            let output = output as u32;
            return Err(PlanError::Fault(PlanFault::NoSuchOutput { output }));
        };
        taken.push(place)?;
        number = next_number(&file.label, number);
    }
    Ok(taken)
}

/// The first that isn't marked.
fn first_left(marks: &[bool]) -> Option<usize>
    ensures left { IfSome result (IsFirst (λ o. (o < length marks.now) × ¬ IsMarked marks.now o)) }
    ensures none { IsNone result → (o : ℕ) → o < length marks.now → IsMarked marks.now o }
{
    'marks: for (place, marked) in marks.iter().enumerate() {
        if !*marked {
            return Some(place);
        }
    }
    None
}

/// Whether a file of this kind can't take what a pad gives.
fn cannot_take(ending: Ending, media: Media) -> bool
    ensures { IsTrue result ↔ CannotTake ending media }
{
    match (ending, media) {
        (Ending::Y4m, Media::Audio) | (Ending::Wav, Media::Video) => true,
        _ => false,
    }
}

/// The first file that can't take what its pad gives.
fn first_wrong(pads: &[OpenOut], files: &[OutputFile], places: &[usize]) -> Option<usize>
    requires found { AreFound pads.now files.now places.now }
    requires each { length places.now ≡ length files.now }
    ensures wrong { IfSome result (IsFirst (TakesWrong pads.now files.now)) }
    ensures none { IsNone result → (k : ℕ) → TakesWrong pads.now files.now k → ⊥ }
{
    'files: for (output, place) in places.iter().enumerate() {
        if cannot_take(files[output].ending, pads[*place].media) {
            return Some(output);
        }
    }
    None
}

/// Checks that each pad is taken, and that each file can take what its pad gives.
fn check_taken(pads: &[OpenOut], files: &[OutputFile], taken: &Taken) -> Result<(), PlanError>
    requires found { AreFound pads.now files.now taken.now.places.items }
    requires each { length taken.now.places.items ≡ length files.now }
    requires marked { MarksThese (length pads.now) taken.now.places.items taken.now.marks.items }
    requires few { length files.now < 2 ^ 32 }
    ensures mapped { IfOk result (λ _. (o : ℕ) → ¬ IsUnmapped pads.now files.now o) }
    ensures fit { IfOk result (λ _. (k : ℕ) → ¬ TakesWrong pads.now files.now k) }
    ensures fault { IfFault result (IsBindFault pads.now files.now) }
{
    if let Some(place) = first_left(taken.marks.as_slice()) {
        let left = &pads[place];
        let (filter, pad) = (left.filter, left.pad);
        return Err(PlanError::Fault(PlanFault::Unmapped { filter, pad }));
    }
    if let Some(output) = first_wrong(pads, files, taken.places.as_slice()) {
        let output = output as u32;
        return Err(PlanError::Fault(PlanFault::WrongKind { output }));
    }
    Ok(())
}

/// Adds the links from the pads at these places to the outputs.
fn push_outputs(
    mut links: Vec<Edge>,
    pads: &[OpenOut],
    places: &[usize],
) -> Result<Vec<Edge>, NoMemory>
    requires few { length places.now < 2 ^ 32 }
    requires within { (k o : ℕ) → slice_get places.now k ≡ Some o → o < length pads.now }
    ensures { IfOk result (λ all. (outputs : List Edge) × (all.items ≡ links.items ++ outputs) × (length outputs ≡ length places.now) × AreLinks pads.now places.now outputs) }
{
    'places: for (output, place) in places.iter().enumerate() {
        let pad = &pads[*place];
        let from = Source::Filter {
            filter: pad.filter,
            pad: pad.pad,
        };
        let output = output as u32;
        let to = Target::Output { output };
        links.push(Edge { from, to })?;
    }
    Ok(links)
}

impl DraftPlan {
    /// The plan whose outputs are these files.
    ///
    /// A file with a label takes the open pad with that label, and the files without one take, in order, the open pads
    /// without one. There are fewer than 2^32 files. The draft is dropped also on an error.
    ///
    /// # Errors
    /// The first of these that occurs: `NoSuchOutput` at the lowest file that finds no pad, or one that an earlier file
    /// took; `Unmapped` at the first pad that no file takes; `WrongKind` at the lowest file that can't take what its pad
    /// gives. Or out of memory.
    pub fn bind(self, alloc: Global, outputs: &List<OutputFile>) -> Result<Plan, PlanError>
        requires { length outputs.now < 2 ^ 32 }
        ensures bound { IfOk result (IsBound self outputs.now) }
        // What binds isn't refused, and has no other plan.
        ensures binds { (plan : Plan) → IsBound self outputs.now plan → Gives (λ made. made ≡ plan) result }
        ensures fault { IfFault result (IsBindFault self.opens outputs.now) }
        // What has a fault isn't bound, and has no other.
        ensures faulty { (f : PlanFault) → IsBindFault self.opens outputs.now f → Refuses (λ found. found ≡ f) result }
    {
        let DraftPlan {
            links,
            order,
            opens,
        } = self;
        let pads = opens.as_slice();
        let files = outputs.as_slice();
        let taken = take_pads(alloc, pads, files)?;
        check_taken(pads, files, &taken)?;
        let links = push_outputs(links.into_vec(), pads, taken.places.as_slice())?;
        let links = List::new(links);
        Ok(Plan { links, order })
    }
}
