// The layers in which a call refuses.
ghost use Rattle.std.specs.Prelude.{Some};
ghost use Rattle.fault.specs.Lines.{layer_name};

use std::fmt;

#[derive(Clone, Copy, PartialEq, Eq, Debug)]
pub enum Layer {
    Sheet,
    Exchange,
    ClosedExchange,
    Checker,
}

impl fmt::Display for Layer {
    ghost output = { λ l. Some (layer_name l) };

    fn fmt<W: fmt::Write>(&self, f: &mut fmt::Formatter<W>) -> fmt::Result {
        match *self {
            Layer::Sheet => f.write_str("sheet"),
            Layer::Exchange => f.write_str("exchange"),
            Layer::ClosedExchange => f.write_str("closed exchange"),
            Layer::Checker => f.write_str("checker"),
        }
    }
}
