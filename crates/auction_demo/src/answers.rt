// What calls of an auction answer, as it is printed.
use bidding::sought::Offer;
use ledgers::deliveries::Delivery;
use std::fmt;

#[derive(Clone, Copy)]
pub struct Bid(pub Offer);

impl fmt::Display for Bid {
    fn fmt<W: fmt::Write>(&self, f: &mut fmt::Formatter<W>) -> fmt::Result {
        write!(f, "bid seat {} price {}", self.0.seat, self.0.price)
    }
}

#[derive(Clone, Copy)]
pub struct Delivered(pub Delivery);

impl fmt::Display for Delivered {
    fn fmt<W: fmt::Write>(&self, f: &mut fmt::Formatter<W>) -> fmt::Result {
        match self.0 {
            Delivery::Outbid { seat, price } => write!(f, "outbid seat {seat} price {price}"),
            Delivery::Accepted(landing) => {
                write!(
                    f,
                    "accepted seat {} price {} displaced ",
                    landing.seat, landing.price
                )?;
                match landing.displaced {
                    Some(run) => write!(f, "{run}"),
                    None => f.write_str("none"),
                }
            }
        }
    }
}
