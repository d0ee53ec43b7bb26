// One burst made zero, and one burst of the writes to a record that has an owner: SW2HW, and RESIZE_CQ.
#![tactic(auto)]

ghost use Rattle.std.specs.Prelude.{◌≡◌, ◌≤◌, length, replicate};
ghost use Rattle.words.specs.Maps.{map_from};
ghost use Rattle.mailboxes.specs.Mailboxes.{stored_of};
ghost use Rattle.burst_table.specs.Sizes.{burst_size};
ghost use Rattle.byte_rule.specs.Bytes.{sw2hw_byte, resize_byte};
ghost use Rattle.word_moves.specs.Places.{Burst};
ghost use Rattle.owner_bursts.specs.Owners.{owner_byte};

use burst_table::BURST;
use requests::Owned;

// Makes every byte zero.
pub fn zero_burst(burst: &mut [u8])
    requires { length burst.old ≡ burst_size }
    ensures { burst.new ≡ replicate burst_size 0 }
{
    words::fill(burst, 0, BURST, 0);
}

// Makes every byte zero but the owner's, byte 63 of the record: the hardware has it.
fn give_owner(burst: &mut [u8], first: usize)
    requires { Burst burst.old first }
    ensures { burst.new ≡ map_from owner_byte first burst.old }
{
    zero_burst(burst);
    if first == 48 {
        burst[15] = 1;
    }
}

// SW2HW: the stored words, over a burst that has the owner alone (01, The context store).
pub fn sw2hw_burst(owned: Owned, burst: &mut [u8], image: &[u8], first: usize)
    requires owned_in_bounds { stored_of owned ≤ length image.now }
    requires burst { Burst burst.old first }
    ensures { burst.new ≡ map_from (λ i b. sw2hw_byte owned image.now i) first burst.old }
{
    give_owner(burst, first);
    word_moves::store_words(mailboxes::stored(owned), burst, image, first);
}

// RESIZE_CQ: byte 0Ch stands in the record's first burst, word 18h in its second (01, Commands).
pub fn resize_burst(burst: &mut [u8], image: &[u8], first: usize)
    requires in_bounds { 8 ≤ length image.now }
    requires burst { Burst burst.old first }
    ensures { burst.new ≡ map_from (resize_byte image.now) first burst.old }
{
    if first == 0 {
        burst[0x0c] = image[0];
        return;
    }
    if first == 0x10 {
        word_moves::copy_word(image, 4, burst, 8);
    }
}
