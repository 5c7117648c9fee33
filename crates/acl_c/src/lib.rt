//! The C library: each call here is one of `acl_wire`, and answers in numbers. `include/meardwyn.h`
//! declares them.
#![tactic(auto)]

mod buffers;
mod compare;
mod creation;
mod deletion;
mod nfs4;
mod posix;
mod status;
mod text;
mod version;
mod xdr;
