// The control record, and the guard that keeps it silent for a while.
ghost use Rattle.std.specs.Prelude.{◌≡◌, false};
ghost use Rattle.chip.specs.Control.{bit, controlled, switched, place_behind};

// How many places the window shows.
pub(crate) const WINDOW_SIZE: u16 = 4_096;

#[derive(Clone, Copy, PartialEq, Eq, Debug, Default)]
pub struct Control {
    // whether the chip sounds
    pub on: bool,
    // the wave bank: which 4,096 places the window shows
    pub bank: u8,
    // the voice, from 0, that writes to addresses 0 to 6 reach
    pub selected: u8,
}

impl Control {
    // The memory place behind a window offset.
    pub fn place_behind(self, offset: u16) -> u32
        ensures { result ≡ place_behind self offset }
    {
        u32::from(self.bank) * u32::from(WINDOW_SIZE) + u32::from(offset)
    }

    // Takes a control byte.
    pub fn set(&mut self, byte: u8)
        ensures { self.new ≡ controlled self.old byte }
    {
        self.on = bit(byte, 7);
        if bit(byte, 6) {
            self.selected = byte % 8;
        } else {
            self.bank = byte % 16;
        }
    }
}

// Bit `k` of a byte.
#[tactic(auto, using(crate::proofs::Bit::bit_past))]
pub(crate) fn bit(byte: u8, k: usize) -> bool
    ensures { result ≡ bit byte k }
{
    k < 8 && (byte >> k) % 2 == 1
}

// Keeps ON clear while it lives, and puts it back as it was at its end.
pub struct Quiet<'a> {
    control: &'a mut Control,
    on: bool,
}

impl<'a> Quiet<'a> {
    pub fn new(control: &'a mut Control) -> Quiet<'a>
        ensures quiet { result.control.now ≡ switched control.old false }
        ensures on { result.on ≡ control.old.on }
        ensures lender { result.control.ghost_name ≡ control.entry.ghost_name }
    {
        let on = control.on;
        control.on = false;
        Quiet { control, on }
    }

    // The memory place behind a window offset meanwhile.
    pub fn place_behind(&self, offset: u16) -> u32
        ensures { result ≡ place_behind self.now.control.now offset }
    {
        self.control.place_behind(offset)
    }
}

impl Drop for Quiet<'_> {
    fn drop(self)
        ensures { self.exit.0.now ≡ switched self.entry.control.now self.entry.on }
    {
        self.control.on = self.on;
        let Quiet { control: _, on: _ } = self;
    }
}
