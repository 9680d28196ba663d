//! Threads share a board, and hand seats and values to one another.
use crate::boards::{Begun, Board, Seat, Unpublished};
use crate::views::Stands;

fn is_shared<X: Sync>(_value: &X) {}

fn is_sent<X: Send>(value: X) -> X {
    value
}

/// A board is `Sync` and `Send` where its values are.
fn share_board<T: Stands + Send + Sync>(board: Board<T>) -> Board<T> {
    is_shared(&board);
    is_sent(board)
}

/// A seat is `Send` where the values are.
fn send_seat<T: Stands + Send + Sync>(seat: Seat<T>) -> Seat<T> {
    is_sent(seat)
}

/// So is what `begin` and `publish` give.
fn send_answers<T: Stands + Send + Sync>(
    begun: Begun<T>,
    refused: Unpublished<T>,
) -> (Begun<T>, Unpublished<T>) {
    (is_sent(begun), is_sent(refused))
}
