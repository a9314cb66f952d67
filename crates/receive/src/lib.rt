// The receiving call, in place on a table whose columns are lent. The methods are put into their callers, which saves a call for each
// packet. What `take` answers goes on field by field: copied whole, it is read in wider pieces than it was written in, and waits for them.
// Each method takes apart what was heard by itself: in one place for both, it made a capture a twentieth slower.
#![tactic(auto)]

ghost use Rattle.std.specs.Prelude.{◌≤◌, ◌≡◌, true};
ghost use Rattle.model.specs.Table.{table_of, holding, valid};
ghost use Rattle.model.specs.Receive.{receive};

mod steps;

use hearing::hear;
use model::{Head, Received};
use refusals::Refusal;
use steps::hear_packet;
use table::{refused, take};

// A table that passes the tests, in columns that are lent.
#[derive(Drop)]
pub struct Tested<'a> {
    pub head: Head,
    pub keys: &'a mut [u64; 128],
    pub heard: &'a mut [u32; 128],
    pub ghost passes: { valid (table_of head keys.now heard.now) ≡ true },
}

impl Tested<'_> {
    ghost use Rattle.receive.specs.Receives.{Receives, Hears};

    // Receives a packet: its report is taken, or it is refused with 1 to 11 or 17, and the table is as it was.
    #[inline(always)]
    pub fn receive(&mut self, packet: &[u8]) -> Received
        ensures { Receives self.old packet.now result self.new }
    {
        match hear_packet(self.head, packet) {
            Ok(said) => {
                let Received {
                    refusal,
                    is_new,
                    count,
                    probes,
                } = take(self.head, self.keys, self.heard, said.key, said.told);
                self.head.count = count;
                Received {
                    refusal,
                    is_new,
                    count,
                    probes,
                }
            }
            Err(refusal) => refused(refusal, self.head.count),
        }
    }

    // Hears a payload at its timestamp, marked or not, and takes it, or refuses it with 7 to 11 or 17, and the table is as it was.
    #[inline(always)]
    pub fn hear(&mut self, timestamp: u32, marked: bool, payload: &[u8]) -> Received
        ensures { Hears self.old timestamp marked payload.now result self.new }
    {
        match hear(self.head, timestamp, marked, payload) {
            Ok(said) => {
                let Received {
                    refusal,
                    is_new,
                    count,
                    probes,
                } = take(self.head, self.keys, self.heard, said.key, said.told);
                self.head.count = count;
                Received {
                    refusal,
                    is_new,
                    count,
                    probes,
                }
            }
            Err(refusal) => refused(refusal, self.head.count),
        }
    }
}

// Receives a packet: its report is taken into the table, or it is refused with 16, 1 to 11 or 17, and the table is as it
// was.
#[tactic(auto, using(crate::proofs::Ways::ways))]
pub fn receive(head: Head, keys: &mut [u64; 128], heard: &mut [u32; 128], packet: &[u8]) -> Received
    ensures value { result ≡ (receive (table_of head keys.old heard.old) packet.now).answer }
    ensures heard_after { table_of (holding result.count head) keys.new heard.new
        ≡ (receive (table_of head keys.old heard.old) packet.now).table }
    ensures probes_bound { result.probes ≤ 8 }
{
    if !valid::is_valid(head, keys, heard) {
        return refused(Refusal::InvalidTable, head.count);
    }
    let mut table = Tested { head, keys, heard };
    table.receive(packet)
}
