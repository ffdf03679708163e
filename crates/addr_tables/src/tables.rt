//! The search, and what changes in the tables.

ghost use Rattle.std.specs.Prelude.{◌≡◌, ℕ, ◌/◌, ◌<◌, ◌↔◌, false, List, length, Some as Just, None as Nothing, IfErr};
ghost use Rattle.std.specs.Result.{result_ok};
ghost use Rattle.flash_words.specs.Layouts.{IsRight};
ghost use Rattle.flash_words.specs.declared.layout.Layout.{Layout as LayoutOf};
ghost use Rattle.sram_layout.specs.Bytes.{byte_count};
ghost use Rattle.sram_layout.specs.Cells.{aside_cell, way_cell, entry_at};
ghost use Rattle.page_index.specs.Entries.{IsEntry, IsMapped};
ghost use Rattle.page_index.specs.Surveys.{IsSurvey};
ghost use Rattle.addr_tables.specs.Tables.{IsTables};
ghost use Rattle.addr_tables.specs.Hits.{hit as hit_of, is_of as is_of_test};
ghost use Rattle.addr_tables.specs.Changes.{is_pair as is_pair_test, is_in as is_in_test, noted_in_set, noted, noted_if, without_entry, forgotten, Finds, Notes, Forgets, IsIn, entry_cell, HasNoneIn, StaysOutside};

use flash_model::{Flash, Layout, PAGE_WORDS};
use page_index::{Places, Survey, entry};
use sram_layout::Sram;

/// How many entries the look-aside table has.
const ASIDES: u16 = 32;

/// How many sets the two-way table has.
const SETS: u16 = 64;

/// The place, a word address of flash, of the original address `t`: the one that the tables have, right
/// or not, and else that of the pool's entry of `t`. It is noted in the tables. None where neither has
/// one. Only where the tables have none is the pool searched.
///
/// This is the plain form: the program calls [`find_with_hints`].
pub fn find(sram: &mut Sram, flash: &Flash, layout: &Layout, t: u16) -> Option<u16>
    requires right { IsRight layout.now }
    requires mapped { hit_of sram.old t ≡ Nothing → IsMapped layout.now flash.now.words }
    ensures finds { Finds layout.now flash.now.words sram.old sram.new t result }
    ensures tables { IsTables layout.now sram.old flash.now.words → IsTables layout.now sram.new flash.now.words }
    ensures entry { IsTables layout.now sram.old flash.now.words → IsMapped layout.now flash.now.words
        → (v : ℕ) → (result ≡ Just v) ↔ IsEntry layout.now flash.now.words t v }
    ensures size { (length sram.old ≡ byte_count) × (length sram.new ≡ byte_count) }
{
    let place = known_place(sram, flash, layout, t)?;
    note(sram, t, place);
    Some(place)
}

/// The place, from the tables or from the pool.
fn known_place(sram: &Sram, flash: &Flash, layout: &Layout, t: u16) -> Option<u16>
    requires right { IsRight layout.now }
    requires mapped { hit_of sram.now t ≡ Nothing → IsMapped layout.now flash.now.words }
    ensures found { Finds layout.now flash.now.words sram.now (noted_if sram.now t result) t result }
    ensures size { length sram.now ≡ byte_count }
{
    match hit(sram, t) {
        None => entry(flash, layout, t),
        Some(place) => Some(place),
    }
}

/// Finds as [`find`] does, but searches the pool only where no hint has the place. It is for one who makes a page of `t`
/// where it has none: where neither the tables nor the pool have a place, an `Err` tells what that page wants to know of the
/// pool.
pub fn find_with_hints(
    sram: &mut Sram,
    flash: &Flash,
    layout: &Layout,
    places: &mut Places,
    t: u16,
) -> Result<u16, Survey>
    requires right { IsRight layout.now }
    requires mapped { hit_of sram.old t ≡ Nothing → IsMapped layout.now flash.now.words }
    ensures finds { Finds layout.now flash.now.words sram.old sram.new t (result_ok result) }
    ensures survey { IfErr result (IsSurvey layout.now flash.now.words (t / 128)) }
    ensures tables { IsTables layout.now sram.old flash.now.words → IsTables layout.now sram.new flash.now.words }
    ensures entry { IsTables layout.now sram.old flash.now.words → IsMapped layout.now flash.now.words
        → (v : ℕ) → (result_ok result ≡ Just v) ↔ IsEntry layout.now flash.now.words t v }
    ensures size { (length sram.old ≡ byte_count) × (length sram.new ≡ byte_count) }
{
    match look_up(sram, flash, layout, places, t) {
        Ok(place) => {
            note(sram, t, place);
            Ok(place)
        }
        Err(survey) => Err(survey),
    }
}

/// The place, or what a page of `t` wants to know.
fn look_up(
    sram: &Sram,
    flash: &Flash,
    layout: &Layout,
    places: &mut Places,
    t: u16,
) -> Result<u16, Survey>
    requires right { IsRight layout.now }
    requires mapped { hit_of sram.now t ≡ Nothing → IsMapped layout.now flash.now.words }
    ensures found { Finds layout.now flash.now.words sram.now (noted_if sram.now t (result_ok result)) t (result_ok result) }
    ensures survey { IfErr result (IsSurvey layout.now flash.now.words (t / 128)) }
    ensures size { length sram.now ≡ byte_count }
{
    match hit(sram, t) {
        None => places.find(flash, layout, t),
        Some(place) => Ok(place),
    }
}

/// The place that the tables have for `t`.
fn hit(sram: &Sram, t: u16) -> Option<u16>
    ensures value { result ≡ hit_of sram.now t }
    ensures size { length sram.now ≡ byte_count }
{
    let aside = sram.aside((t % ASIDES) as u8);
    if is_of(aside, t) {
        return Some(aside.1);
    }
    let set = (t % SETS) as u8;
    let first = sram.way(set, 0);
    if is_of(first, t) {
        return Some(first.1);
    }
    let second = sram.way(set, 1);
    if is_of(second, t) {
        return Some(second.1);
    }
    None
}

/// Whether an entry is of `t`, and not empty.
fn is_of(entry: (u16, u16), t: u16) -> bool
    ensures value { result ≡ is_of_test (entry.0, entry.1) t }
{
    entry.0 == t && entry.1 != 0
}

/// Notes the place of the original address `t` in both tables. In the two-way table it becomes the first
/// entry of its set, and the first before becomes the second; the set stays where it has this place of
/// `t` in either entry.
#[tactic(auto, unfolding(crate::specs::Changes::noted))]
pub fn note(sram: &mut Sram, t: u16, place: u16)
    ensures after { sram.new ≡ noted sram.old t place }
    ensures notes { Notes t place sram.old sram.new }
    ensures tables { (layout : LayoutOf) → (words : List ℕ) → IsEntry layout words t place
        → IsTables layout sram.old words → IsTables layout sram.new words }
    ensures size { (length sram.old ≡ byte_count) × (length sram.new ≡ byte_count) }
{
    note_in_set(sram, t, place);
    sram.set_aside((t % ASIDES) as u8, t, place);
}

/// Notes the place in the two-way table.
#[tactic(auto, unfolding(crate::specs::Changes::noted_in_set))]
fn note_in_set(sram: &mut Sram, t: u16, place: u16)
    ensures after { sram.new ≡ noted_in_set sram.old t place }
    ensures size { length sram.old ≡ byte_count }
{
    let set = (t % SETS) as u8;
    let first = sram.way(set, 0);
    if is_pair(first, t, place) {
        return;
    }
    let second = sram.way(set, 1);
    if is_pair(second, t, place) {
        return;
    }
    sram.set_way(set, 1, first.0, first.1);
    sram.set_way(set, 0, t, place);
}

/// Whether an entry is exactly this pair.
fn is_pair(entry: (u16, u16), t: u16, place: u16) -> bool
    ensures value { result ≡ is_pair_test (entry.0, entry.1) t place }
{
    entry.0 == t && entry.1 == place
}

/// Empties each entry of both tables whose place is in this page of flash; its four bytes are then 0.
/// Once no entry has a place there, the page can be erased.
pub fn forget_page(sram: &mut Sram, page: u16)
    ensures after { sram.new ≡ forgotten sram.old page }
    ensures forgets { Forgets page sram.old sram.new }
    ensures gone { HasNoneIn page sram.new }
    ensures tables { (layout : LayoutOf) → (words : List ℕ) → IsTables layout sram.old words → IsTables layout sram.new words }
    // What was right is right still for each flash that keeps the entries outside the page.
    ensures erased { (layout : LayoutOf) → (words words' : List ℕ) → StaysOutside layout words words' page
        → IsTables layout sram.old words → IsTables layout sram.new words' }
    ensures size { (length sram.old ≡ byte_count) × (length sram.new ≡ byte_count) }
{
    // Mostly none has, and to look at all takes less time than to stop at one.
    if has_place_in(sram, page) {
        forget_each(sram, page);
    }
}

/// Whether an entry of either table has its place in the page.
fn has_place_in(sram: &Sram, page: u16) -> bool
    ensures none { result ≡ false → (k : ℕ) → k < 160 → ¬ IsIn page (entry_at sram.now (entry_cell k)) }
    ensures size { length sram.now ≡ byte_count }
{
    let mut any = false;
    'asides: for i in 0..ASIDES as u8 {
        any = any | is_in(sram.aside(i), page);
    }
    'sets: for set in 0..SETS as u8 {
        any = any | is_in(sram.way(set, 0), page) | is_in(sram.way(set, 1), page);
    }
    any
}

/// Empties each such entry, one after the other.
#[inline(never)]
fn forget_each(sram: &mut Sram, page: u16)
    ensures forgets { Forgets page sram.old sram.new }
    ensures size { length sram.new ≡ byte_count }
{
    'asides: for i in 0..ASIDES as u8 {
        forget_aside(sram, page, i);
    }
    'sets: for set in 0..SETS as u8 {
        forget_way(sram, page, set, 0);
        forget_way(sram, page, set, 1);
    }
}

/// Empties an entry of the look-aside table whose place is in the page.
#[tactic(auto, unfolding(crate::specs::Changes::without_entry))]
fn forget_aside(sram: &mut Sram, page: u16, i: u8)
    requires { i < 32 }
    ensures after { sram.new ≡ without_entry sram.old page (aside_cell i) }
    ensures size { (length sram.old ≡ byte_count) × (length sram.new ≡ byte_count) }
{
    if is_in(sram.aside(i), page) {
        sram.set_aside(i, 0, 0);
    }
}

/// Empties an entry of the two-way table whose place is in the page.
#[tactic(auto, unfolding(crate::specs::Changes::without_entry))]
fn forget_way(sram: &mut Sram, page: u16, set: u8, which: u8)
    requires set_in { set < 64 }
    requires which_in { which < 2 }
    ensures after { sram.new ≡ without_entry sram.old page (way_cell set which) }
    ensures size { (length sram.old ≡ byte_count) × (length sram.new ≡ byte_count) }
{
    if is_in(sram.way(set, which), page) {
        sram.set_way(set, which, 0, 0);
    }
}

/// Whether the entry's place is in the page.
fn is_in(entry: (u16, u16), page: u16) -> bool
    ensures value { result ≡ is_in_test page (entry.0, entry.1) }
{
    entry.1 / PAGE_WORDS == page
}
