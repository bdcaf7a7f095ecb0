//! What holds of the items of a schedule, as functions that do nothing: their contracts are the theorems.

ghost use Rattle.wf_play.specs.Laws.{AgreeIn, ItemStandsForOneNumber, ItemsStandForOneRun, LongItemsAreNoRun};

use wf_object::Engine;

/// From one state an item stands for one number of steps, and items stand for one list of steps, which leads to one state.
pub fn items_stand_for_one_run<E: Engine>()
    ensures item { (e : E) → ItemStandsForOneNumber (E.meaning e) }
    ensures items { (e : E) → ItemsStandForOneRun (E.meaning e) }
{}

/// Where the fault of an item that is too long is true, there is no run of the scripts and the items on any object that begins
/// with the block.
pub fn too_long_items_are_no_run<E: Engine>()
    ensures { (e : E) → LongItemsAreNoRun (E.meaning e) (E.lawful e) (E.fits e) (E.ready e) }
{}

/// Runs of the same scripts and items on objects that begin with one block leave one cell, and show one history, order and
/// schedule.
pub fn one_block_shows_one_run<E: Engine>()
    ensures cell { (e : E) → AgreeIn (E.meaning e) (E.lawful e) (E.fits e) (E.ready e) (λ s. s.cell) }
    ensures records { (e : E) → AgreeIn (E.meaning e) (E.lawful e) (E.fits e) (E.ready e) (λ s. s.records) }
{}
