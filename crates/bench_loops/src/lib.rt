// Loops that the benchmarks time: the two receiving calls as a Rattle program makes them, on packets of 16 bytes.
#![tactic(auto)]

use model::Head;
use receive::Tested;

// One pass over a buffer of packets, the table tested for each; answers the head after it.
fn pass(head: Head, keys: &mut [u64; 128], heard: &mut [u32; 128], packets: &[u8]) -> Head {
    let mut after = head;
    for packet in packets.chunks_exact(16) {
        after.count = receive::receive(after, keys, heard, packet).count;
    }
    after
}

// So many passes.
#[unsafe(no_mangle)]
pub extern "C" fn bench_receive(
    head: Head,
    keys: &mut [u64; 128],
    heard: &mut [u32; 128],
    packets: &[u8],
    passes: u32,
) -> usize {
    let mut after = head;
    for _ in 0..passes {
        after = pass(after, keys, heard, packets);
    }
    after.count
}

// One pass over a buffer of packets, into a table that passes the tests.
fn pass_valid(table: &mut Tested, packets: &[u8]) {
    for packet in packets.chunks_exact(16) {
        table.receive(packet);
    }
}

// So many passes, the table tested once; 0 if it fails the tests.
#[tactic(auto, using(receive::proofs::Ways::passed))]
#[unsafe(no_mangle)]
pub extern "C" fn bench_receive_valid(
    head: Head,
    keys: &mut [u64; 128],
    heard: &mut [u32; 128],
    packets: &[u8],
    passes: u32,
) -> usize {
    if !valid::is_valid(head, keys, heard) {
        return 0;
    }
    let mut table = Tested { head, keys, heard };
    for _ in 0..passes {
        pass_valid(&mut table, packets);
    }
    table.head.count
}
