//! What an operation of each class takes, and the names of the classes.
ghost use Rattle.std.specs.Prelude.{◌≡◌};
ghost use Rattle.k_optab.specs.Latencies.{class_name, latency, standard_latencies};

use crate::{Class, Table};

/// A latency for each class, in the order of `Class`.
pub type Latencies = Table<12>;

/// The latencies where no table says another.
pub fn standard() -> Latencies
    ensures { result ≡ standard_latencies }
{
    let mut table = Table::filled(1);
    table.set(Class::Move as usize, 0);
    table.set(Class::Conv as usize, 0);
    table.set(Class::Mul as usize, 3);
    table.set(Class::Div as usize, 20);
    table.set(Class::Load as usize, 4);
    table.set(Class::Input as usize, 10);
    table.set(Class::Output as usize, 10);
    table
}

/// A class's latency in a table.
pub fn of(table: &Latencies, class: Class) -> u64
    ensures { result ≡ latency table.now class }
{
    table.get(class as usize)
}

/// A class's name in reports, listings and tables of latencies.
pub fn name(class: Class) -> &'static str
    ensures { result.now ≡ class_name class }
{
    match class {
        Class::Move => "move",
        Class::Conv => "conv",
        Class::Simple => "simple",
        Class::Mul => "mul",
        Class::Div => "div",
        Class::Load => "load",
        Class::Store => "store",
        Class::Test => "test",
        Class::Call => "call",
        Class::Input => "input",
        Class::Output => "output",
        Class::Select => "select",
    }
}
