//! The drafts that are kept, by their addresses.

ghost use Rattle.std.specs.Prelude.{◌/◌, ◌<◌};
ghost use Rattle.flash_words.specs.Layouts.{IsRight, image_of};
ghost use Rattle.page_index.specs.Entries.{AreKnown};
ghost use Rattle.nat_page.specs.Faithful.{IsFaithful};
ghost use Rattle.nat_page.specs.Making.{HasNoEntry};
ghost use Rattle.kept_drafts.specs.Keeping.{Serves};

use crate::keeping::KeptDraft;
use flash_model::{Flash, Layout, MOST_IMAGE_WORDS};
use std::alloc::{AllocError, Global};

/// How many drafts are kept at most: with them some 1.5 MiB.
const DRAFTS: usize = 1500;

/// How many addresses an image has at most.
const ADDRESSES: usize = MOST_IMAGE_WORDS as usize;

/// The room for drafts.
#[derive(Drop)]
struct Room {
    /// By the address, one above the number of the draft that was made for it last; 0 where none was.
    numbers: Vec<u16>,
    /// The drafts.
    drafts: Vec<KeptDraft>,
    /// The number of the draft that gives way next, once there is no room for more.
    oldest: usize,
}

impl Room {
    /// Room for so many, of which none is taken.
    fn boxed(alloc: Global) -> Result<Box<Room>, AllocError> {
        let mut numbers = Vec::new(alloc);
        numbers.resize(ADDRESSES, 0)?;
        let drafts = Vec::with_capacity(alloc, DRAFTS)?;
        let room = Box::new(
            alloc,
            Room {
                numbers,
                drafts,
                oldest: 0,
            },
        )?;
        Ok(room)
    }

    /// The number of the draft that was made for the address, or else that of one which gives way to it.
    fn number_for(&mut self, t: u16) -> usize {
        match self.number_of(t) {
            Some(number) => number,
            None => self.new_number(t),
        }
    }

    /// The number of the draft that was made for the address, if it is kept.
    fn number_of(&self, t: u16) -> Option<usize> {
        let noted = match self.numbers.get(usize::from(t)) {
            Some(noted) if *noted > 0 => usize::from(*noted),
            _ => return None,
        };
        match self.drafts.get(noted - 1) {
            Some(draft) if draft.first() == t => Some(noted - 1),
            _ => None,
        }
    }

    /// The number of a new draft for the address, or of the oldest, which gives way.
    fn new_number(&mut self, t: u16) -> usize {
        let mut number = self.drafts.len();
        if number >= DRAFTS {
            number = self.oldest % DRAFTS;
            self.oldest = (number + 1) % DRAFTS;
        } else if self.drafts.push(KeptDraft::none()).is_err() {
            return DRAFTS;
        }
        if let Some(noted) = self.numbers.get_mut(usize::from(t)) {
            *noted = number as u16 + 1;
        }
        number
    }
}

/// Drafts of pages, each kept until others want its room.
#[derive(Drop)]
pub struct KeptDrafts {
    /// The room for them, if there is any.
    room: Option<Box<Room>>,
}

impl KeptDrafts {
    /// No drafts, and no room for any.
    #[inline(always)]
    pub fn new() -> KeptDrafts {
        KeptDrafts { room: None }
    }

    /// Makes room, where there is memory for it.
    pub fn make_room(&mut self, alloc: Global) {
        if let Ok(room) = Room::boxed(alloc) {
            self.room = Some(room);
        }
    }

    /// The page of `t` as it is drafted: the draft that is kept of it, where that is the same. Where there is no room it is made in
    /// `spare`.
    pub fn draft<'a>(
        &'a mut self,
        spare: &'a mut KeptDraft,
        flash: &Flash,
        layout: &Layout,
        known: &[bool; 128],
        t: u16,
    ) -> &'a KeptDraft
        requires right { IsRight layout.now }
        requires code { IsFaithful layout.now (image_of layout.now flash.now.words) flash.now.words }
        requires known { AreKnown layout.now flash.now.words (t / 128) known.now }
        requires inside { t < layout.now.image_words }
        requires unknown { HasNoEntry layout.now flash.now.words t }
        ensures serves { Serves layout.now (image_of layout.now flash.now.words) flash.now.words t result.now }
    {
        let draft = self.kept(t).unwrap_or(spare);
        if draft.serves(flash, layout, known, t) {
            draft.learn();
        } else {
            draft.make(flash, layout, known, t);
        }
        draft
    }

    /// The draft that was made for the address, or one that gives way to it.
    fn kept(&mut self, t: u16) -> Option<&mut KeptDraft> {
        match &mut self.room {
            Some(room) => {
                let number = room.number_for(t);
                room.drafts.get_mut(number)
            }
            None => None,
        }
    }
}
