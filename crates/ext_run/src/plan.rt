//! What a command asks for, as a plan: where its module comes from, and what is made of it. No other file knows the
//! commands.
ghost use Rattle.std.specs.Prelude.{◌≡◌};
ghost use Rattle.ext_run.specs.Plan.{plan_of};
ghost use Rattle.ext_run.specs.declared.plan.Form as Form;
ghost use Rattle.ext_run.specs.declared.plan.Origin as Origin;
ghost use Rattle.ext_run.specs.declared.plan.Plan as Plan;

use bidegree::{Class, Range, Shape};
use ext_table::Layout;
use ext_words::{Build, Classes, Command, Common};
use sq_calc::Mono;

/// Where a module comes from.
#[derive(Clone, Copy, Debug)]
pub enum Origin {
    /// It is that of the sphere.
    Sphere,
    /// This number draws it.
    Sample(u32),
    /// The file that the source has left describes it.
    File,
}

/// A text on the squares of a resolution.
#[derive(Clone, Copy, Debug)]
pub enum Sheet {
    Chart,
    Differentials,
    Summary,
}

/// What is sought of classes that are named one by one.
#[derive(Clone, Copy, Debug)]
pub enum Sought {
    /// The product of the class `a` of the sphere with the class `x` of the module.
    Product { a: Class, x: Class },
    /// The bracket of the classes `a` and `b` of the sphere with the class `c` of the module.
    Bracket { a: Class, b: Class, c: Class },
}

/// What is printed of a resolution. It is no `Copy` type, since `Classes` has memory.
#[derive(Debug, Drop)]
pub enum Form {
    /// This sheet, on the squares of the range that are of this shape.
    Squares(Sheet, Shape),
    /// The products of these classes of the sphere with the classes of the module, those that are in squares of this shape, in this layout.
    Products(Layout, Classes, Shape),
    /// What is sought of classes.
    Sought(Sought),
}

/// What a command asks for.
#[derive(Drop)]
pub enum Plan {
    /// A module is resolved, and told of in this form.
    Resolve {
        origin: Origin,
        form: Form,
        common: Common,
    },
    /// The module of a file is resolved by so many workers, through the least range that has what is sought, which is told.
    Seek {
        sought: Sought,
        workers: u32,
    },
    /// The module of a file is told of in a line.
    Check,
    /// A module is built of those of a file.
    Build(Build),
    /// Squares are multiplied.
    Multiply(Mono),
    /// The save file of a file's module gets the quasi-inverses that it lacks.
    Migrate,
    /// A file's module is told of in a chart, if its save file is a certificate of the range.
    Verify(Range),
}

/// What the command asks for.
pub(crate) fn plan_of(command: Command) -> Plan
    ensures { result ≡ plan_of command }
{
    match command {
        Command::Sphere(common) => to_sheet(Origin::Sphere, Sheet::Chart, common),
        Command::Resolve(common) => to_sheet(Origin::File, Sheet::Chart, common),
        Command::Dump(common) => to_sheet(Origin::File, Sheet::Differentials, common),
        Command::Products { common, by } => to_products(Layout::Lists, by, common),
        Command::Massey { common, a, b, c } => {
            let sought = Sought::Bracket { a, b, c };
            resolve(Origin::File, Form::Sought(sought), common)
        }
        Command::Product { workers, a, x } => Plan::Seek {
            sought: Sought::Product { a, x },
            workers,
        },
        Command::Bracket { workers, a, b, c } => Plan::Seek {
            sought: Sought::Bracket { a, b, c },
            workers,
        },
        Command::Check => Plan::Check,
        Command::Build(made) => Plan::Build(made),
        Command::Sample { n, common } => to_sheet(Origin::Sample(n), Sheet::Summary, common),
        Command::Sq(squares) => Plan::Multiply(squares),
        Command::Migrate => Plan::Migrate,
        Command::Verify(range) => Plan::Verify(range),
        Command::Table { common, by } => to_products(Layout::Table, by, common),
    }
}

/// A module of this origin is resolved as far as this, and told of in this sheet.
fn to_sheet(origin: Origin, sheet: Sheet, common: Common) -> Plan
    ensures { result ≡ Plan.Resolve origin (Form.Squares sheet common.shape) common }
{
    resolve(origin, Form::Squares(sheet, common.shape), common)
}

/// The module of a file is resolved as far as this, and its products with these classes are told in this layout.
fn to_products(layout: Layout, by: Classes, common: Common) -> Plan
    ensures { result ≡ Plan.Resolve Origin.File (Form.Products layout by common.shape) common }
{
    resolve(
        Origin::File,
        Form::Products(layout, by, common.shape),
        common,
    )
}

/// A module of this origin is resolved as far as this, and told of in this form.
fn resolve(origin: Origin, form: Form, common: Common) -> Plan
    ensures { result ≡ Plan.Resolve origin form common }
{
    Plan::Resolve {
        origin,
        form,
        common,
    }
}
