ghost use Rattle.polynomials.specs.Keys.{KeysAreInOrder, KeysOfProducts};

/// The order of keys, word by word, is the order of monomials.
pub fn keys_are_in_order()
    ensures { KeysAreInOrder }
{}

/// The words of a product are the sums of the words, and where no sum of exponents passes 255 they fit: no word carries.
pub fn keys_of_products_are_sums()
    ensures { KeysOfProducts }
{}
