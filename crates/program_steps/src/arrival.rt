//! The arrival that is owed: made before the next step, or refused.

ghost use Rattle.std.specs.Prelude.{◌≡◌, ◌≢◌, ℕ, ◌<◌, ◌≤◌, ◌^◌, true, false, List, Some, None, IfSome};
ghost use Rattle.flash_words.specs.Layouts.{IsRight};
ghost use Rattle.flash_words.specs.Memory.{IsWhole};
ghost use Rattle.flash_words.specs.declared.layout.Layout.{Layout as LayoutOf};
ghost use Rattle.page_cursor.specs.Cursors.{IsCursor};
ghost use Rattle.nat_page.specs.Faithful.{IsFaithful};
ghost use Rattle.addr_tables.specs.Tables.{IsTables};
ghost use Rattle.branch_bridge.specs.Arrivals.{CameThrough, KeepsEntries, ring_of};
ghost use Rattle.kernel_entry.specs.Parts.{image_held};
ghost use Rattle.step_laws.specs.States.{admits, end_by as end_by_of};
ghost use Rattle.program_steps.specs.Loop.{MayArrive, HasArrived, after_arrival};
ghost use Rattle.program_steps.specs.Several.{HasFollowed};
ghost use Rattle.program_steps.specs.Ready.{IsGoing, IsQuiet};
ghost use Rattle.program_steps.specs.Stepping.{HasEntered, HasBound};
ghost use Rattle.program_steps.specs.Interrupts.{IsUntaken};
ghost use Rattle.program_steps.specs.Stale.{IsStale};
ghost use Rattle.program_steps.specs.Wholes.{whole};

use crate::progress::Progress;
use branch_bridge::{Arrival, ArriveStop, arrive_at_known_place, arrive_through};
use flash_model::{Flash, PAGE_WORDS};
use kept_drafts::Hints;
use kernel_entry::{End, Kernel, Owed};
use page_cursor::Cursor;

/// Whether the program may go on where it stands: one that is shut in its part may not outside it, and then ends there
/// without an arrival.
pub fn may_enter(k: &Kernel, p: &Progress) -> bool
    ensures value { result ≡ admits k.now.part p.now.at }
{
    !k.part.shut || k.part.owns(p.at)
}

/// Makes the arrival that is owed, if any. Where it is refused the program has ended.
#[inline(always)]
pub fn enter(k: &mut Kernel, p: &mut Progress, cursor: &mut Cursor) -> Option<End>
    requires ready { IsGoing (whole k.old p.old) }
    requires steps { p.old.steps ≤ 10 ^ 12 }
    requires quiet { IsQuiet (whole k.old p.old) }
    requires untaken { IsUntaken (whole k.old p.old) }
    requires admitted { admits k.old.part p.old.at ≡ true }
    requires cursor { IsCursor k.old.layout k.old.mote.flash.words cursor.old }
    ensures entered { HasEntered (whole k.old p.old) (whole k.new p.new) result }
    ensures cursor { IsCursor k.new.layout k.new.mote.flash.words cursor.new }
{
    match p.owed {
        None => None,
        Some(owed) => {
            arrive(k, p, cursor, owed);
            p.end
        }
    }
}

/// Makes the arrival that is owed: as one that leaves flash as it is where it may be, since that costs less.
#[inline(always)]
fn arrive(k: &mut Kernel, p: &mut Progress, cursor: &mut Cursor, owed: Owed)
    requires may { MayArrive (whole k.old p.old) owed }
    requires cursor { IsCursor k.old.layout k.old.mote.flash.words cursor.old }
    ensures arrived { HasArrived (whole k.old p.old) (whole k.new p.new) }
    ensures whole { IsWhole k.new.mote.flash }
    ensures cursor { IsCursor k.new.layout k.new.mote.flash.words cursor.new }
{
    if owed.stub.is_some() {
        arrive_renewing_cursor(k, p, cursor, owed);
        return;
    }
    if !arrive_known(k, p, cursor, owed.target) {
        arrive_renewing_cursor(k, p, cursor, owed);
        return;
    }
    keeps_whole(&k.mote.flash);
}

/// Makes the arrival that is owed, whatever it changes.
#[inline(always)]
fn arrive_renewing_cursor(k: &mut Kernel, p: &mut Progress, cursor: &mut Cursor, owed: Owed)
    requires may { MayArrive (whole k.old p.old) owed }
    requires cursor { IsCursor k.old.layout k.old.mote.flash.words cursor.old }
    ensures arrived { HasArrived (whole k.old p.old) (whole k.new p.new) }
    ensures whole { IsWhole k.new.mote.flash }
    ensures cursor { IsCursor k.new.layout k.new.mote.flash.words cursor.new }
{
    let stale = arrive_owed(k, p, &mut cursor.hints, owed);
    keeps_whole(&k.mote.flash);
    forget(cursor, stale);
}

/// Whether a step may follow the one that was made: it wrote no line, and there are fewer than so many.
#[inline(always)]
pub(crate) fn is_followed(p: &Progress, end: u64) -> bool
    ensures fewer { result ≡ true → (p.now.steps < end) × (p.now.line ≡ None) }
{
    p.line.is_none() && p.steps < end
}

/// Makes the arrival that a step has led to, where it leaves flash as it is, no interrupt is due, the program may go there,
/// and a step may follow. Tells whether it was made; elsewhere nothing is done.
#[inline(always)]
pub(crate) fn arrive_between_steps(
    k: &mut Kernel,
    p: &mut Progress,
    cursor: &mut Cursor,
    end: u64,
) -> bool
    requires going { p.old.end ≡ None → IsGoing (whole k.old p.old) }
    requires ended { p.old.end ≢ None → p.old.owed ≡ None }
    requires cursor { IsCursor k.old.layout k.old.mote.flash.words cursor.old }
    ensures followed { result ≡ true → HasFollowed (whole k.old p.old) (whole k.new p.new) }
    ensures fewer { result ≡ true → p.old.steps < end }
    ensures silent { result ≡ true → (p.old.line ≡ None) × (p.new.line ≡ None) }
    ensures none { result ≡ false → (k.new ≡ k.old) × (p.new ≡ p.old) }
    ensures cursor { IsCursor k.new.layout k.new.mote.flash.words cursor.new }
{
    let owed = match p.owed {
        None => return false,
        Some(owed) => owed,
    };
    if p.due {
        return false;
    }
    if owed.stub.is_some() {
        return false;
    }
    if !may_enter(k, p) {
        return false;
    }
    if !is_followed(p, end) {
        return false;
    }
    let made = arrive_known(k, p, cursor, owed.target);
    keeps_whole(&k.mote.flash);
    made
}

/// Makes the arrival that is owed, through no stub, where the cursor has a hint at its place: then flash stays. Tells
/// whether it was made; elsewhere nothing is done. Not inlined, so that arrivals can be counted from outside.
#[inline(never)]
fn arrive_known(k: &mut Kernel, p: &mut Progress, cursor: &mut Cursor, target: u16) -> bool
    requires owed { p.old.owed ≡ Some (record { target = target; stub = None }) }
    requires going { p.old.end ≡ None }
    requires untorn { p.old.torn ≡ None }
    requires untaken { IsUntaken (whole k.old p.old) }
    requires admitted { admits k.old.part target ≡ true }
    requires right { IsRight k.old.layout }
    requires faithful { IsFaithful k.old.layout (image_held k.old) k.old.mote.flash.words }
    requires tables { IsTables k.old.layout k.old.mote.sram k.old.mote.flash.words }
    requires ring { ring_of k.old.mote.sram < k.old.layout.pool_pages }
    requires cursor { IsCursor k.old.layout k.old.mote.flash.words cursor.old }
    ensures arrived { result ≡ true → HasArrived (whole k.old p.old) (whole k.new p.new) }
    ensures after { result ≡ true → p.new ≡ record p.old { owed = None } }
    ensures none { result ≡ false → (k.new ≡ k.old) × (p.new ≡ p.old) }
    ensures cursor { IsCursor k.new.layout k.new.mote.flash.words cursor.new }
{
    match cursor.go_to(&k.mote.flash, &k.layout, target) {
        None => false,
        Some(place) => {
            arrive_at_known_place(&mut k.mote.sram, target, place);
            k.mote.cpu.pc = place;
            p.owed = None;
            true
        }
    }
}

/// What an arrival may have made wrong of what is known of places.
#[derive(Clone, Copy)]
enum Stale {
    /// Nothing: the entries are what they were.
    Nothing,
    /// What is known of the page of this place, which was made.
    PageOf(u16),
    /// All of it.
    Everything,
}

/// Forgets what an arrival may have made wrong.
fn forget(cursor: &mut Cursor, stale: Stale)
    ensures right { (layout : LayoutOf) (old new : List ℕ) → IsStale layout old new stale → IsCursor layout old cursor.old → IsCursor layout new cursor.new }
{
    match stale {
        Stale::Nothing => {}
        Stale::PageOf(place) => cursor.forget_page(place / PAGE_WORDS),
        Stale::Everything => cursor.forget(),
    }
}

/// The answer where all steps of a program that has the whole image are done: an arrival outside it is refused at once.
pub fn at_bound(k: &mut Kernel, p: &mut Progress, cursor: &mut Cursor) -> End
    requires ready { IsGoing (whole k.old p.old) }
    requires steps { p.old.steps ≤ 10 ^ 12 }
    requires quiet { IsQuiet (whole k.old p.old) }
    requires unshut { k.old.part.shut ≡ false }
    requires cursor { IsCursor k.old.layout k.old.mote.flash.words cursor.old }
    ensures bound { HasBound (whole k.old p.old) (whole k.new p.new) result }
{
    let owed = match p.owed {
        None => return End::Spent,
        Some(owed) => owed,
    };
    if owed.target < k.layout.image_words {
        return End::Spent;
    }
    match enter(k, p, cursor) {
        None => End::Spent,
        Some(end) => end,
    }
}

/// Makes the arrival that is owed. Tells what it may have made wrong of what is known of places. The stub that asked for it leads
/// to its place from then on. Not inlined, since what it keeps on the stack, with the words of pages, is cleared where it begins.
#[inline(never)]
fn arrive_owed(k: &mut Kernel, p: &mut Progress, hints: &mut Hints, owed: Owed) -> Stale
    requires owed { p.old.owed ≡ Some owed }
    requires going { p.old.end ≡ None }
    requires untorn { p.old.torn ≡ None }
    requires untaken { IsUntaken (whole k.old p.old) }
    requires admitted { admits k.old.part owed.target ≡ true }
    requires right { IsRight k.old.layout }
    requires faithful { IsFaithful k.old.layout (image_held k.old) k.old.mote.flash.words }
    requires tables { IsTables k.old.layout k.old.mote.sram k.old.mote.flash.words }
    requires stub { CameThrough k.old.layout k.old.mote.flash.words owed.stub owed.target }
    requires ring { ring_of k.old.mote.sram < k.old.layout.pool_pages }
    requires room { k.old.mote.flash.ops < 2 ^ 61 }
    requires few { p.old.pages < 2 ^ 62 }
    ensures arrived { HasArrived (whole k.old p.old) (whole k.new p.new) }
    ensures stale { IsStale k.old.layout k.old.mote.flash.words k.new.mote.flash.words result }
{
    let arrival = arrive_through(
        &mut k.mote.sram,
        &mut k.mote.flash,
        &k.layout,
        hints,
        owed.target,
        owed.stub,
    );
    k.mote.cpu.pc = arrival.place.unwrap_or(k.mote.cpu.pc);
    note_arrival(p, &arrival);
    stale_behind(&arrival)
}

/// What an arrival may have made wrong: one that made a page changed no other page's entries, and one that made none changed none.
fn stale_behind(arrival: &Arrival) -> Stale
    ensures stale { (layout : LayoutOf) (old new : List ℕ) → (arrival.now.refused ≡ None → IfSome arrival.now.place (λ place. KeepsEntries layout old new arrival.now.made place)) → IsStale layout old new result }
{
    if arrival.refused.is_some() {
        return Stale::Everything;
    }
    let place = match arrival.place {
        None => return Stale::Everything,
        Some(place) => place,
    };
    if !arrival.made {
        return Stale::Nothing;
    }
    Stale::PageOf(place)
}

/// Takes down what an arrival made, and how it was refused.
fn note_arrival(p: &mut Progress, arrival: &Arrival)
    requires few { p.old.pages < 2 ^ 62 }
    ensures noted { p.new ≡ after_arrival arrival.now p.old }
{
    if arrival.made {
        p.pages += 1;
    }
    match arrival.refused {
        None => p.owed = None,
        Some(refused) => {
            p.end = Some(end_by(refused.why));
            p.torn = refused.torn;
        }
    }
}

/// How a refused arrival ends the program.
fn end_by(why: ArriveStop) -> End
    ensures value { result ≡ end_by_of why }
{
    match why {
        ArriveStop::Wild { address } => End::Wild(address),
        ArriveStop::Flash { op } => End::Flash(op),
    }
}

/// Flash is whole, as its type keeps it; a read of any word tells so to the proof.
fn keeps_whole(flash: &Flash)
    ensures whole { IsWhole flash.now }
{
    let _ = flash.word(0);
}
