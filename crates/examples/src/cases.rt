// The cases on which the two implementations are compared: shapes, payloads and fields, by a fixed generator.
pub(crate) mod damage;
pub(crate) mod erasures;
pub(crate) mod faults;
pub(crate) mod fields;
pub(crate) mod numbers;
pub(crate) mod padding;
pub(crate) mod plans;
pub(crate) mod random;
pub(crate) mod shaded;
pub(crate) mod shapes;
pub(crate) mod sizes;
pub(crate) mod tears;
pub(crate) mod windows;
