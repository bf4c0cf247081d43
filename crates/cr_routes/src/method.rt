// SPDX-License-Identifier: Apache-2.0 OR MIT
//! Methods of HTTP.
ghost use Rattle.std.specs.Prelude.{◌≡◌};

/// A method that some path of the server answers (RFC 9110, section 9.3).
#[derive(Clone, Copy, PartialEq, Eq)]
pub enum Method {
    /// Asks for what a query gives.
    Get,
    /// Asks for what GET does, without the content.
    Head,
    /// Sends a command.
    Post,
    /// Sends what is to be at the path.
    Put,
    /// Asks that what is at the path be removed.
    Delete,
}

impl Method {
    ghost use Rattle.cr_routes.specs.Methods.{method_of};

    /// Returns the method of this name. Names are case-sensitive (RFC 9110, section 9.1), and a method that no path of
    /// the server answers is None.
    ///
    /// # Cost
    ///
    /// No allocation.
    pub fn read(name: &[u8]) -> Option<Method>
        ensures { result ≡ method_of name.now }
    {
        if name == b"GET".as_slice() {
            return Some(Method::Get);
        }
        if name == b"HEAD".as_slice() {
            return Some(Method::Head);
        }
        if name == b"POST".as_slice() {
            return Some(Method::Post);
        }
        if name == b"PUT".as_slice() {
            return Some(Method::Put);
        }
        if name == b"DELETE".as_slice() {
            return Some(Method::Delete);
        }
        None
    }
}
