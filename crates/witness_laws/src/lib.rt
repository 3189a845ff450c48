//! What a witness reports of a connection, next to what its two ends and the machine did. Laws, and no code.
//!
//! - `order_laws`: it does not depend on the order in which the lines of the two ends are read, as long as no reply is read before its command;
//!   and recordings, between which no order is known, claim no more than a witness that knows it. `specs/Orders`, `Claims`, `Courses`
//! - `server_laws`: of a server of this repository it is what that server did, as long as no line comes under a tag in use. `specs/Reports`,
//!   `Lockstep`, `Transit`
//! - `client_laws`: of a client of this repository it begins with what that client counts, whatever its peer sends. `specs/Acts`, `Lines`, `Ahead`,
//!   `Visits`
//! - `machine_laws`: the tool and the frame that are known of a contact are those of the machine, if its server keeps the premises.
//!   `specs/Machines`, `Premises`, `Contacts`, `Relays`
//!
//! The modules of examples have orders, servers, clients and histories that are written out.
#![tactic(auto)]

pub mod client_examples;
pub mod client_laws;
pub mod machine_examples;
pub mod machine_laws;
pub mod order_examples;
pub mod order_laws;
pub mod server_examples;
pub mod server_laws;
