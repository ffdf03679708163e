//! One page of flash that gets other words.

ghost use Rattle.std.specs.Prelude.{◌≡◌, ◌+◌, ◌<◌, ◌^◌};
ghost use Rattle.flash_words.specs.Pages.{page_count};
ghost use Rattle.flash_words.specs.Memory.{IsWhole};
ghost use Rattle.branch_bridge.specs.Operating.{Program, perform, rewriting, lacking as lacking_of, stop_of};

use flash_model::Flash;

/// The words that a page was to get, where its programming was refused after it was erased.
#[derive(Clone, Copy)]
pub struct Torn {
    /// The page, which is erased.
    pub page: u16,
    /// What it was to hold.
    pub words: [u16; 128],
}

/// Why stubs were not rewritten.
#[derive(Clone, Copy)]
pub struct ResolveStop {
    /// The number of the operation on flash that was refused.
    pub op: u64,
    /// The page that lacks its words, where one was erased for it.
    pub torn: Option<Torn>,
}

/// Erases a page, and programs it with these words.
pub(crate) fn rewrite(flash: &mut Flash, page: u16, words: &[u16; 128]) -> Result<(), ResolveStop>
    requires page { page < page_count }
    requires room { flash.old.ops + 1 < 2 ^ 63 }
    ensures performed { perform flash.old (rewriting page words.now) ≡ record { memory = flash.new; stop = stop_of result } }
    ensures whole { IsWhole flash.old × IsWhole flash.new }
{
    match flash.rewrite(page, words) {
        Ok(()) => Ok(()),
        Err(stop) => Err(ResolveStop {
            op: stop.op,
            torn: lacking(stop.erased, page, words),
        }),
    }
}

/// The page that lacks these words, if it was erased for them.
pub(crate) fn lacking(again: bool, page: u16, words: &[u16; 128]) -> Option<Torn>
    ensures value { result ≡ lacking_of (Program again page words.now) }
{
    if again {
        Some(Torn {
            page,
            words: *words,
        })
    } else {
        None
    }
}
