ghost use Rattle.std.specs.Prelude.{IsTrue};
ghost use Rattle.std.specs.List.{list_all};
ghost use Rattle.poly_model.specs.Standard.{is_bounded};

/// The values of the first variables at a try, and the product of all scalings so far.
#[derive(Debug, Drop)]
pub struct Values {
    pub numbers: Vec<i128>,
    pub scale: i128,
    pub ghost bounded: { IsTrue (list_all is_bounded numbers.items) },
    pub ghost scaled: { IsTrue (is_bounded scale) },
}
