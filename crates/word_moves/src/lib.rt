// The words of one burst that come from a mailbox image: those that an edge takes, and those that
// SW2HW stores.
#![tactic(auto)]

ghost use Rattle.std.specs.Prelude.{◌≡◌, ◌+◌, ◌≤◌, ◌%◌, length};
ghost use Rattle.words.specs.Parts.{part, splice};
ghost use Rattle.words.specs.Maps.{map_from};
ghost use Rattle.mailboxes.specs.Mailboxes.{edge_need};
ghost use Rattle.byte_rule.specs.Bytes.{taken_byte};
ghost use Rattle.word_moves.specs.Places.{on_word, before, image_byte, Burst, Word};

use burst_table::BURST;
use edges::Edge;

// Copies the image's word at `from` to `to` of the burst. All four bytes are read before one is
// written, so that they are moved together.
pub fn copy_word(image: &[u8], from: usize, burst: &mut [u8], to: usize)
    requires from_in_bounds { from + 4 ≤ length image.now }
    requires to_in_bounds { to + 4 ≤ length burst.old }
    ensures { burst.new ≡ splice to (part from 4 image.now) burst.old }
{
    let word = [
        image[from],
        image[from + 1],
        image[from + 2],
        image[from + 3],
    ];
    burst[to..to + 4].copy_from_slice(&word);
}

// Takes the word at `at` of the burst from the image where the edge does.
fn take_word(edge: Edge, burst: &mut [u8], image: &[u8], first: usize, at: usize)
    requires edge_in_bounds { edge_need edge ≤ length image.now }
    requires word { Word burst.old first at }
    ensures { burst.new
        ≡ map_from (on_word (first + at) (taken_byte edge image.now)) first burst.old }
{
    let w = first + at;
    if byte_rule::takes_word(edge, w) {
        copy_word(image, w, burst, at);
    }
}

// The words of the burst that the edge takes.
pub fn take_words(edge: Edge, burst: &mut [u8], image: &[u8], first: usize)
    requires edge_in_bounds { edge_need edge ≤ length image.now }
    requires burst { Burst burst.old first }
    ensures { burst.new ≡ map_from (taken_byte edge image.now) first burst.old }
{
    for k in 0..BURST / 4 {
        take_word(edge, burst, image, first, k * 4);
    }
}

// Stores the image's word at `at` of the burst where it lies before `stored` of the record.
fn store_word(stored: usize, burst: &mut [u8], image: &[u8], first: usize, at: usize)
    requires stored_in_bounds { stored ≤ length image.now }
    requires stored_value { stored % 4 ≡ 0 }
    requires word { Word burst.old first at }
    ensures { burst.new
        ≡ map_from (on_word (first + at) (before stored (image_byte image.now))) first burst.old }
{
    if first + at < stored {
        copy_word(image, first + at, burst, at);
    }
}

// The same loop as in `take_words`: one over a closure would carry the contract of its step, and be no plainer.
// The words of the burst that lie before `stored` of the record.
pub fn store_words(stored: usize, burst: &mut [u8], image: &[u8], first: usize)
    requires stored_in_bounds { stored ≤ length image.now }
    requires stored_value { stored % 4 ≡ 0 }
    requires burst { Burst burst.old first }
    ensures { burst.new ≡ map_from (before stored (image_byte image.now)) first burst.old }
{
    for k in 0..BURST / 4 {
        store_word(stored, burst, image, first, k * 4);
    }
}
