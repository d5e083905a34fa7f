//! A list of orders.

ghost use Rattle.std.specs.Prelude.{◌≡◌, IfOk};

use crate::order::Order;
use std::alloc::{AllocError, Global};
use std::marker::Model;

/// Orders in the order in which they are to be sent.
#[derive(Debug)]
pub struct Orders {
    orders: Vec<Order>,
}

/// Written out, so that no crate above proves anew how its parts are dropped.
impl Drop for Orders {
    fn drop(self) {
        let Orders { orders: _orders } = self;
    }
}

impl Model for Orders {
    ghost use Rattle.std.specs.Prelude.{List};
    ghost use Rattle.order_maker.specs.declared.order.Order.{Order};

    ghost Value = { List Order };

    ghost view = { λ s. s.orders.items };
}

impl Orders {
    /// The orders of the vector, which is moved.
    pub fn from_vec(orders: Vec<Order>) -> Orders
        ensures { result ≡ orders.items }
    {
        Orders { orders }
    }

    pub fn as_slice(&self) -> &[Order]
        ensures { result.now ≡ self.now }
    {
        &self.orders
    }

    /// The orders as a vector, which is moved and not copied.
    pub fn into_vec(self) -> Vec<Order>
        ensures { result.items ≡ self }
    {
        let Orders { orders } = self;
        orders
    }

    /// The same orders in memory of their own.
    pub fn copied(&self, alloc: Global) -> Result<Orders, AllocError>
        ensures { IfOk result (λ copy. copy ≡ self.now) }
    {
        let mut orders = Vec::new(alloc);
        let all = self.as_slice();
        for order in all {
            orders.push(order.copied(alloc)?)?;
        }
        Ok(Orders::from_vec(orders))
    }
}
