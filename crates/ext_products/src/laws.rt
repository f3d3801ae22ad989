//! Laws over the definitions, as contracts of functions that do nothing.
ghost use Rattle.std.specs.Prelude.{List};
ghost use Rattle.bidegree.specs.declared.range.Range.{Range};
ghost use Rattle.bidegree.specs.declared.shape.Shape.{Shape};
ghost use Rattle.bidegree.specs.declared.class.Class.{Class};
ghost use Rattle.ext_products.specs.Products.{IsProductsAnswer, ProductsAnswerOfOne, ProductsAnswerOfEach, IsOneProductAnswer, OneProductIsLine, HasAnswer, HasOneAnswer};

/// The canonical resolutions of a module and of the sphere have an answer for all classes that products are asked with.
pub fn products_answer_exists()
    ensures { (shape : Shape) (range : Range) (by : List Class) → HasAnswer (IsProductsAnswer shape range by) range }
{
    lift_laws::each_class_lifts();
    lift_laws::lifts_give_one_product();
}

/// Two resolutions have at most one answer.
pub fn products_answer_is_unique()
    ensures { (shape : Shape) (range : Range) (by : List Class) → HasOneAnswer (IsProductsAnswer shape range by) }
{}

/// What is told of one class stands alone, without a line that names it.
pub fn products_answer_of_one()
    ensures { ProductsAnswerOfOne }
{}

/// What is told of several classes is the lines of each, behind a line that names it.
pub fn products_answer_of_each()
    ensures { ProductsAnswerOfEach }
{}

/// The canonical resolutions of a module and of the sphere have an answer for any two classes of which one product is asked.
pub fn one_product_answer_exists()
    ensures { (range : Range) (a x : Class) → HasAnswer (IsOneProductAnswer range a x) range }
{
    lift_laws::each_class_lifts();
    lift_laws::lifts_give_one_product();
}

/// Two resolutions have at most one answer.
pub fn one_product_answer_is_unique()
    ensures { (range : Range) (a x : Class) → HasOneAnswer (IsOneProductAnswer range a x) }
{}

/// What is told of one product is a line of what is told of all products with its class of the sphere.
pub fn one_product_is_line()
    ensures { OneProductIsLine }
{}
