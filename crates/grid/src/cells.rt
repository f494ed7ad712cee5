// The cells of a board or of a position, one after another, with no word about which touch.
ghost use Rattle.std.specs.Prelude.{◌≡◌, eqb};
ghost use Rattle.lists.specs.Lists.{count};

// How many cells show `value`.
pub fn count_showing(cells: &[u8], value: u8) -> usize
    ensures { result ≡ count (λ v. eqb v value) cells.now }
{
    let mut found = 0;
    for &cell in cells {
        if cell == value {
            found += 1;
        }
    }
    found
}
