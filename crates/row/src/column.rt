// Lists of values that are read at places: a scan axis, a mobility table.
ghost use Rattle.std.specs.Prelude.{◌≡◌, List, ◌<◌, length, get_or};

// Values at places. They stand in a slice, or are worked out of bytes where they are asked for.
pub trait Column<T>: Copy {
    ghost items: { Self → List T };

    // How many there are.
    fn count(self) -> usize
        ensures { result ≡ length (items self) };

    fn item(self, i: usize) -> T
        requires { i < length (items self) }
        ensures { (d : T) → result ≡ get_or (items self) i d };
}

impl<'a, T: Copy> Column<T> for &'a [T] {
    ghost items = { λ s. s.now };

    fn count(self) -> usize {
        self.len()
    }

    fn item(self, i: usize) -> T {
        self[i]
    }
}
