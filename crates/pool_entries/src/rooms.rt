// The lent rooms of a pool: its lengths, counts and texts. They travel together.
ghost use Rattle.std.specs.Prelude.{◌≡◌};
ghost use Rattle.pool_entries.specs.Rooms.{rooms_of, rooms_held};

// A text that is shown is a part of the text room, and may outlive the loan of the other two.
#[derive(Clone, Copy)]
pub struct Rooms<'r, 't> {
    pub lengths: &'r [u32],
    pub counts: &'r [u16],
    pub text: &'t [u8],
}

#[derive(Drop)]
pub struct RoomsMut<'a> {
    pub lengths: &'a mut [u32],
    pub counts: &'a mut [u16],
    pub text: &'a mut [u8],
}

impl RoomsMut<'_> {
    pub fn view(&self) -> Rooms<'_, '_>
        ensures { rooms_of result ≡ rooms_held self.now }
    {
        Rooms {
            lengths: &*self.lengths,
            counts: &*self.counts,
            text: &*self.text,
        }
    }
}
