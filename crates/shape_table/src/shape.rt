// A shape of a table, where it lies in the table's bytes.
ghost use Rattle.std.specs.Prelude.{◌≡◌, map, slice_get};
ghost use Rattle.shape_table.specs.Layout.{u16_at};

use crate::fields::weight_in;

// A data count, and a row of weights, two bytes each.
#[derive(Clone, Copy)]
pub(crate) struct ShapeInPlace<'a> {
    pub count: u16,
    pub row: &'a [[u8; 2]],
}

impl<'a> ShapeInPlace<'a> {
    // The weight of a period, if the row has the period.
    pub(crate) fn weight(&self, period: usize) -> Option<u16>
        ensures { result ≡ slice_get (map (λ weight. u16_at weight 0) self.now.row.now) period }
    {
        self.row.get(period).map(|weight| weight_in(*weight))
    }
}
