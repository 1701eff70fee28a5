// A conversion of a triangle between packed order and rectangular full packed order of a form: where the source and the target keep an entry.
ghost use Rattle.std.specs.Prelude.{◌≡◌, ◌≤◌};
ghost use Rattle.shape.specs.Bounds.{max_order};
ghost use Rattle.shape.specs.Layouts.{Entry};
ghost use Rattle.calls.specs.Conversions.{source_place, target_place};
ghost use Rattle.convert.specs.Halves as Halves;
ghost use Rattle.convert.specs.Halves.{source_end, target_end};

use calls::Conversion;
use shape::Shape;

// The form is any number, as rule 17 of crate calls judges any: all but 0 are taken as the transpose. The two memories are lent beside it, and their lengths are
// a clause, `Held`: of a `&mut` field each contract would also have to say that it still holds the same memory.
#[derive(Clone, Copy)]
pub struct Route {
    pub conversion: Conversion,
    pub form: usize,
    pub shape: Shape,
    pub ghost order: { shape.order ≤ max_order },
}

impl Route {
    // Of a place or a distance in packed order and one in rectangular full packed order, that in the source and that in the target.
    pub fn ends(self, packed: usize, rfp: usize) -> (usize, usize)
        ensures { (result.0 ≡ source_end self.conversion packed rfp) × (result.1 ≡ target_end self.conversion packed rfp) }
    {
        match self.conversion {
            Conversion::PackedToRfp => (packed, rfp),
            Conversion::RfpToPacked => (rfp, packed),
        }
    }

    // The places of entry (i, j) in the source and in the target.
    pub fn places(self, i: usize, j: usize) -> (usize, usize)
        requires { Entry self.shape.order i j }
        ensures { (result.0 ≡ source_place self.conversion self.form self.shape.order i j) × (result.1 ≡ target_place self.conversion self.form self.shape.order i j) }
    {
        let packed = self.shape.packed_place(i, j);
        let rfp = self.shape.rfp_place(self.form, i, j);
        self.ends(packed, rfp)
    }

    // The length of a column of the form's array: how far apart rows are in the half that stands by rows.
    pub fn stride(self) -> usize
        ensures { result ≡ Halves.stride self.form self.shape.order }
    {
        if self.form == 0 {
            self.shape.rfp_rows()
        } else {
            self.shape.rfp_columns()
        }
    }
}
