// SPDX-License-Identifier: Apache-2.0 OR MIT
//! The paths that the server knows, their methods, and what a method at a path asks for.
//!
//! One table lists the paths (`specs/Paths.antt`), one function what a method asks for (`specs/Asks.antt`).
//! `specs/Parts.antt` says what the table means, without a router.
//!
//! # Proved
//!
//! - A path is found exactly as its parts say, with its parameters, each one nonempty part: `Routes::find`,
//!   `law_paths`. The router is `matchit`.
//! - A method asks for exactly what the table says; `Allow` names exactly the methods that ask for something:
//!   `Resource::ask`, `Resource::allow` (`methods`).
#![tactic(auto)]

mod laws;
mod matched;
mod method;
mod resource;
mod routes;

pub use laws::law_paths;
pub use matched::Matched;
pub use method::Method;
pub use resource::Resource;
pub use routes::Routes;
