// Tests of a link over a serial port.
#![tactic(auto)]

#[cfg(test)]
mod answering;
#[cfg(test)]
mod arriving;
#[cfg(test)]
mod pumping;
#[cfg(test)]
mod sending;
