// The CRC of many bytes, by blocks of 127. Modulo g(x), x^127 is 1, so that 127 bytes further on a byte counts the same: the CRC of two blocks, one behind the
// other, is that of their sum. Blocks are added by exclusive or, which a processor does for many bytes at a time.
ghost use Rattle.std.specs.Prelude.{◌≡◌, ◌%◌, ◌≤◌, length};
ghost use Rattle.octets.specs.Crc.{crc_from};
ghost use Rattle.octets.specs.Words.{added, added_from};

// One block with the CRC of all: their sum, to whose first byte the CRC so far is added.
pub(crate) fn sum_of_blocks(running: u8, bytes: &[u8]) -> [u8; 127]
    requires { length bytes.now % 127 ≡ 0 }
    ensures { crc_from 0 result ≡ crc_from running bytes.now }
{
    let mut sum = [0; 127];
    sum[0] = running;
    for block in bytes.as_chunks::<127>().0 {
        add_block(block, &mut sum);
    }
    sum
}

// Adds a block to the sum. In two steps: 112 bytes are seven times sixteen, which processors add at once, and what is left is short.
fn add_block(block: &[u8; 127], sum: &mut [u8; 127])
    ensures { sum.new ≡ added sum.old block.now }
{
    add_places(block, 0, 112, sum);
    add_places(block, 112, 127, sum);
}

// Adds a block's places from `from` up to `to`. To add those from `to` on then leaves what adding all from `from` on would have left of the sum before.
fn add_places(block: &[u8; 127], from: usize, to: usize, sum: &mut [u8; 127])
    requires { (from ≤ to) × (to ≤ 127) }
    ensures { added_from to sum.new block.now ≡ added_from from sum.old block.now }
{
    // Kept: by index; what is written through an iterator is not known afterwards.
    for j in from..to {
        sum[j] ^= block[j];
    }
}
