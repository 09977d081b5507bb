// The test of a class: the exclusive or of the positions of its 1 cells is 0.
use crate::answer::Buffer;
use crate::layout::Layout;

// Whether class a of a field is lawful.
pub(crate) fn lawful(layout: &Layout, a: u16, field: &Buffer) -> bool {
    let mut position: usize = 0;
    let mut sum: usize = 0;
    for (i, entry) in layout.entries().iter().enumerate() {
        if entry.class == a {
            position += 1;
            if field[i] == 1 {
                sum ^= position;
            }
        }
    }
    sum == 0
}
