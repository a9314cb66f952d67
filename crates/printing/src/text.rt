// A text that is put together in a room of its own.
ghost use Rattle.std.specs.Prelude.{◌≤◌};

// Room for 128 events of 7 lines and 5 lines more, of 32 bytes each at the most.
const ROOM: usize = 28_832;

// What has been put together so far is in the first `len` bytes.
#[derive(Drop)]
pub struct Text {
    bytes: [u8; ROOM],
    len: usize,
    ghost fits: { len ≤ 28832 },
}

impl Text {
    ghost use Rattle.std.specs.Prelude.{◌≡◌, length};
    ghost use Rattle.printing.specs.Output.{HasRoom, Puts};

    pub(crate) fn new() -> Text
        ensures { result.len ≡ 0 }
    {
        Text {
            bytes: [0; ROOM],
            len: 0,
        }
    }

    // Puts a text behind what stands there.
    pub(crate) fn push(&mut self, text: &str)
        requires { HasRoom (length text.now) self.old }
        ensures { Puts (length text.now) self.old self.new }
    {
        let end = self.len + text.len();
        self.bytes[self.len..end].copy_from_slice(text.as_bytes());
        self.len = end;
    }

    pub(crate) fn written(&self) -> &[u8] {
        &self.bytes[..self.len]
    }
}
