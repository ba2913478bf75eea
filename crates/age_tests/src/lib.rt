#![tactic(auto)]

//! Tests of the libraries through their public names, in a crate of their own because a crate with
//! tests is proved twice. Most show what no clause says: that compiled code meets the vectors of
//! the RFCs, that calls succeed, and what calls do if an allocation, a read or a write fails, or
//! with the recipients and identities of a caller. Other behavior is tested through the program.

#[cfg(test)]
mod cipher;
#[cfg(test)]
mod devices;
#[cfg(test)]
mod file;
#[cfg(test)]
mod interrupted;
#[cfg(test)]
mod kdf;
#[cfg(test)]
mod round_trips;
#[cfg(test)]
mod vectors;
