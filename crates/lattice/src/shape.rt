// The shape of a field: its limits, its constructor and its number of cells.
ghost use Rattle.std.specs.Prelude.{◌≡◌};
ghost use Rattle.lattice.specs.Refusal.{number_of, figure};
ghost use Rattle.lattice.specs.Shape.{max_side, max_planes, max_cells, max_flat_strength, max_stack_strength, max_classes};
ghost use Rattle.lattice.specs.Shape.{max_strength, size_ok, is_none, can_rule, strength_ok, window_ok, shape_from};
ghost use Rattle.lattice.specs.Shape.{shape_number, cells_of};
ghost use Rattle.lattice.specs.Answer.{IsNewShape};

use crate::range::within;
use crate::refusal::Refusal;

// A window of p rows by q columns; both are 0 where a shape has none.
#[repr(C)]
#[derive(Clone, Copy)]
pub struct Window {
    pub rows: usize,
    pub columns: usize,
}

// W columns, H rows and D planes of cells, and the strength t; at strength 0 the window says how the cells are placed.
#[derive(Clone, Copy)]
pub struct Shape {
    pub columns: u16,
    pub rows: u16,
    pub planes: u16,
    pub strength: u16,
    pub window: Window,
}

// The numbers of a shape as a caller hands them over, of any size.
#[repr(C)]
#[derive(Clone, Copy)]
pub struct ShapeNumbers {
    pub columns: usize,
    pub rows: usize,
    pub planes: usize,
    pub strength: usize,
    pub window: Window,
}

impl Window {
    // Are both sides 0?
    #[tactic(auto, unfolding(crate::specs::Shape::is_none))]
    fn is_none(self) -> bool
        ensures { result ≡ is_none self }
    {
        self.rows == 0 && self.columns == 0
    }

    // Has it 1 to 512 cells, and the field one plane?
    #[tactic(auto, unfolding(crate::specs::Range::in_range))]
    fn can_rule(self, planes: usize) -> bool
        ensures { result ≡ can_rule planes self }
    {
        within(1, Shape::MAX_WINDOW, self.rows)
            && within(1, Shape::MAX_WINDOW, self.columns)
            && self.rows * self.columns <= Shape::MAX_WINDOW
            && planes <= 1
    }
}

impl Shape {
    pub const MAX_SIDE: usize = 256;

    pub const MAX_PLANES: usize = 16;

    pub const MAX_CELLS: usize = 65536;

    pub const MAX_FLAT_STRENGTH: usize = 32;

    pub const MAX_STACK_STRENGTH: usize = 8;

    pub const MAX_CLASSES: usize = 512;

    const MAX_WINDOW: usize = 512;

    #[tactic(auto, unfolding(crate::specs::Shape::size_ok, crate::specs::Range::in_range))]
    fn size_ok(columns: usize, rows: usize, planes: usize) -> bool
        ensures { result ≡ size_ok columns rows planes }
    {
        within(1, Shape::MAX_SIDE, columns)
            && within(1, Shape::MAX_SIDE, rows)
            && within(1, Shape::MAX_PLANES, planes)
            && columns * rows * planes <= Shape::MAX_CELLS
    }

    fn max_strength(planes: usize) -> usize
        ensures { result ≡ max_strength planes }
    {
        if planes == 1 {
            Shape::MAX_FLAT_STRENGTH
        } else {
            Shape::MAX_STACK_STRENGTH
        }
    }

    #[tactic(auto, unfolding(crate::specs::Shape::strength_ok))]
    fn strength_ok(planes: usize, strength: usize, window: Window) -> bool
        ensures { result ≡ strength_ok planes strength window }
    {
        if strength == 0 {
            !window.is_none()
        } else {
            strength <= Shape::max_strength(planes)
        }
    }

    #[tactic(auto, unfolding(crate::specs::Shape::window_ok, crate::specs::Range::in_range))]
    fn window_ok(planes: usize, strength: usize, window: Window) -> bool
        ensures { result ≡ window_ok planes strength window }
    {
        if strength == 0 {
            window.can_rule(planes)
        } else {
            window.is_none()
        }
    }

    // The tests of a shape's numbers: 1, 2, 11.
    fn tests_of(numbers: ShapeNumbers) -> Result<(), Refusal>
        ensures { number_of result ≡ shape_number (shape_from numbers) }
    {
        if !Shape::size_ok(numbers.columns, numbers.rows, numbers.planes) {
            return Err(Refusal::BadSize);
        }
        let window = numbers.window;
        if !Shape::strength_ok(numbers.planes, numbers.strength, window) {
            return Err(Refusal::BadStrength);
        }
        if !Shape::window_ok(numbers.planes, numbers.strength, window) {
            return Err(Refusal::BadWindow);
        }
        Ok(())
    }

    // The shape of these numbers, or the refusal 1, 2 or 11. No conversion, nor is `numbers`, as docs/OPERATIONS.md names both.
    pub fn new(numbers: ShapeNumbers) -> Result<Shape, Refusal>
        ensures new_shape { IsNewShape numbers result }
        ensures limits { (Self.MAX_SIDE ≡ max_side) × (Self.MAX_PLANES ≡ max_planes) × (Self.MAX_CELLS ≡ max_cells) }
        ensures strengths { (Self.MAX_FLAT_STRENGTH ≡ max_flat_strength)
            × (Self.MAX_STACK_STRENGTH ≡ max_stack_strength)
            × (Self.MAX_CLASSES ≡ max_classes) }
    {
        Shape::tests_of(numbers)?;
        let window = numbers.window;
        Ok(Shape {
            columns: numbers.columns as u16,
            rows: numbers.rows as u16,
            planes: numbers.planes as u16,
            strength: numbers.strength as u16,
            window,
        })
    }

    // The numbers of the shape.
    pub fn numbers(self) -> ShapeNumbers
        ensures { shape_from result ≡ self }
    {
        let window = self.window;
        ShapeNumbers {
            columns: self.columns as usize,
            rows: self.rows as usize,
            planes: self.planes as usize,
            strength: self.strength as usize,
            window,
        }
    }

    // The constructor's tests of the shape's own numbers.
    pub fn tests(self) -> Result<(), Refusal>
        ensures { number_of result ≡ shape_number self }
    {
        Shape::tests_of(self.numbers())
    }

    // The number of cells; 0 for a shape that the constructor refuses.
    pub fn cells(self) -> usize
        ensures { result ≡ figure (shape_number self) (cells_of self) }
    {
        match self.tests() {
            Ok(()) => self.columns as usize * self.rows as usize * self.planes as usize,
            Err(_) => 0,
        }
    }
}
