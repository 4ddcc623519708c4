// The layers laid over a book.
ghost use Rattle.std.specs.Prelude.{◌≡◌};
ghost use Rattle.pile.specs.Layers.{layers_of, layer_at, raised};

use crate::layers::Layers;
use crate::level::Level;
use book::LoadBook;
use losses::Adjustment;

impl Layers {
    /// All the layers over a book, the lowest first. What stands and the places are the book's.
    pub fn over<B: LoadBook + Drop>(&self, book: B) -> Level<Level<Level<Level<B>>>>
        ensures standing { ⟦<Level<Level<Level<Level<B>>>> as LoadBook>⟧.standing result ≡ B.LoadBook.standing book }
        ensures places { ⟦<Level<Level<Level<Level<B>>>> as LoadBook>⟧.places result ≡ B.LoadBook.places book }
        ensures grossing { ⟦<Level<Level<Level<Level<B>>>> as LoadBook>⟧.grossing result ≡ raised (layer_at (layers_of self.now) 4) (raised (layer_at (layers_of self.now) 3) (raised (layer_at (layers_of self.now) 2) (raised (layer_at (layers_of self.now) 1) (B.LoadBook.grossing book)))) }
    {
        let first = self.layer(1).over(book);
        let second = self.layer(2).over(first);
        let third = self.layer(3).over(second);
        self.layer(4).over(third)
    }
}
