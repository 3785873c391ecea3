// A fault of a stored rule or a push record, as it is told: by its number and its own words. Each crate has the table of its
// own numbers; the trait passes them on under one name.
use live_host::record::RecordFault;
use std::fmt::Display;
use stored::rule::{LoadFault, StoreFault};

pub(crate) trait Fault: Display + Drop {
    fn number(&self) -> u8;
}

impl Fault for LoadFault {
    fn number(&self) -> u8 {
        LoadFault::number(*self)
    }
}

impl Fault for StoreFault {
    fn number(&self) -> u8 {
        StoreFault::number(*self)
    }
}

impl Fault for RecordFault {
    fn number(&self) -> u8 {
        RecordFault::number(*self)
    }
}
