// Gaussian elimination as the Rust has it: no pivoting, zero pivots passed over.
ghost use Rattle.std.specs.Prelude.{◌≡◌, ◌+◌, ◌<◌, ◌≤◌};
ghost use Rattle.elimination.specs.Elimination as gauss;

// A system of `size` equations, at most 10. Its one right-hand column stands behind the square part, at place `size` of each row; places past it
// are not looked at.
#[derive(Clone, Copy, Drop)]
pub struct System {
    pub rows: [[f64; 11]; 10],
    pub size: usize,
    pub ghost small: { size ≤ 10 },
}

// The row loses `factor` times the source, from place `from` to the right-hand column.
fn reduce_row(row: &mut [f64; 11], source: &[f64; 11], factor: f64, from: usize, size: usize)
    requires { (from ≤ size) × (size ≤ 10) }
    ensures { row.new ≡ gauss.reduced factor source.now from size row.old }
{
    for k in from..size + 1 {
        row[k] -= factor * source[k];
    }
}

impl System {
    // Row t loses its entry under or over pivot i, up to rounding: no exact zero is written there. Places before `from` stay.
    fn clear_row(&mut self, t: usize, i: usize, from: usize)
        requires { (t < 10) × (i < 10) × (from ≤ self.old.size) }
        ensures { (self.new.rows ≡ gauss.cleared i from self.old.size t self.old.rows) × (self.new.size ≡ self.old.size) }
    {
        let pivot = self.rows[i][i];
        if pivot == 0.0 {
            return;
        }
        let factor = self.rows[t][i] / pivot;
        let source = self.rows[i];
        let mut row = self.rows[t];
        reduce_row(&mut row, &source, factor, from, self.size);
        self.rows[t] = row;
    }

    // The rows below pivot i, from its own column on.
    fn clear_below(&mut self, i: usize)
        requires { i < self.old.size }
        ensures { (self.new.rows ≡ gauss.cleared_below self.old.size i self.old.rows) × (self.new.size ≡ self.old.size) }
    {
        for t in i + 1..self.size {
            self.clear_row(t, i, i);
        }
    }

    fn to_echelon_form(&mut self)
        requires { 0 < self.old.size }
        ensures { (self.new.rows ≡ gauss.echelon self.old.size self.old.rows) × (self.new.size ≡ self.old.size) }
    {
        for i in 0..self.size - 1 {
            self.clear_below(i);
        }
    }

    // The rows above pivot i, from the nearest up, and the whole row of each, left of the pivot too.
    fn clear_above(&mut self, i: usize)
        requires { i < self.old.size }
        ensures { (self.new.rows ≡ gauss.cleared_above self.old.size i self.old.rows) × (self.new.size ≡ self.old.size) }
    {
        for t in (0..i).rev() {
            self.clear_row(t, i, 0);
        }
    }

    fn back_substitute(&mut self)
        requires { 0 < self.old.size }
        ensures { (self.new.rows ≡ gauss.back_substituted self.old.size self.old.rows) × (self.new.size ≡ self.old.size) }
    {
        for i in (1..self.size).rev() {
            self.clear_above(i);
        }
    }

    // Both passes.
    pub fn eliminate(&mut self)
        requires { 0 < self.old.size }
        ensures { (self.new.rows ≡ gauss.eliminated self.old.size self.old.rows) × (self.new.size ≡ self.old.size) }
    {
        self.to_echelon_form();
        self.back_substitute();
    }

    // Whether no zero stands on the diagonal. (A NaN is not zero.)
    pub fn is_regular(&self) -> bool
        ensures { result ≡ gauss.regular self.now.size self.now.rows }
    {
        for i in 0..self.size {
            if self.rows[i][i] == 0.0 {
                return false;
            }
        }
        true
    }

    // The right-hand column over the diagonal, and +0 behind it.
    pub fn solution(&self) -> [f64; 10]
        ensures { result ≡ gauss.read_off self.now.size self.now.rows }
    {
        let mut z = [0.0; 10];
        for i in 0..self.size {
            z[i] = self.rows[i][self.size] / self.rows[i][i];
        }
        z
    }
}
