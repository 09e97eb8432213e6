// What there is once for each side.
ghost use Rattle.std.specs.Prelude.{◌≡◌};
ghost use Rattle.voice.specs.Stereo.{of_side};

#[derive(Clone, Copy, PartialEq, Eq, Debug)]
pub enum SideName {
    Left,
    Right,
}

#[derive(Clone, Copy, PartialEq, Eq, Debug, Default)]
pub struct Stereo<T> {
    pub left: T,
    pub right: T,
}

impl<T: Copy> Stereo<T> {
    pub fn of_side(self, name: SideName) -> T
        ensures { result ≡ of_side name self }
    {
        match name {
            SideName::Left => self.left,
            SideName::Right => self.right,
        }
    }
}
