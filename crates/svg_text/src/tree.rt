// The elements of a picture.
ghost use Rattle.std.specs.Prelude.{◌≡◌, ◌++◌, ◌∷◌, [], OnOk, IfOk, decimal, string_bytes};

use std::alloc::{AllocError, Global};
use std::marker::Model;

/// A name with a value. The name has only letters and `-`.
#[derive(Drop)]
pub struct Attribute {
    name: String,
    value: String,
}

impl Model for Attribute {
    ghost use Rattle.std.specs.Prelude.{string_bytes};
    ghost use Rattle.svg_text.specs.Tree.{Attribute as AttributeValue};

    ghost Value = { AttributeValue };

    ghost view = { λ a. record { name = string_bytes a.name; value = string_bytes a.value } };
}

impl Attribute {
    /// An attribute with this name and value.
    pub fn new(alloc: Global, name: &str, value: &str) -> Result<Attribute, AllocError>
        ensures { IfOk result (λ made. made ≡ record { name = name.now; value = value.now }) }
    {
        let name = String::from_str(alloc, name)?;
        let value = String::from_str(alloc, value)?;
        Ok(Attribute { name, value })
    }

    pub fn name(&self) -> &str
        ensures { result.now ≡ self.now.name }
    {
        self.name.as_str()
    }

    pub fn value(&self) -> &str
        ensures { result.now ≡ self.now.value }
    {
        self.value.as_str()
    }
}

/// An element: its name, its attributes, a title that a viewer shows when the pointer rests on it (none if it is empty), and the
/// words in it.
#[derive(Drop)]
pub struct Shape {
    name: String,
    attributes: Vec<Attribute>,
    title: String,
    words: String,
}

impl Model for Shape {
    ghost use Rattle.std.specs.Prelude.{string_bytes};
    ghost use Rattle.svg_text.specs.Tree.{Shape as ShapeValue};

    ghost Value = { ShapeValue };

    ghost view = { λ s. record { name = string_bytes s.name; attributes = s.attributes.items; title = string_bytes s.title; words = string_bytes s.words } };
}

impl Shape {
    /// An element with this name and these words, without attributes and without a title.
    pub fn new(alloc: Global, name: &str, words: &str) -> Result<Shape, AllocError>
        ensures { IfOk result (λ made. made ≡ record { name = name.now; attributes = []; title = []; words = words.now }) }
    {
        let name = String::from_str(alloc, name)?;
        let words = String::from_str(alloc, words)?;
        Ok(Shape {
            name,
            attributes: Vec::new(alloc),
            title: String::new(alloc),
            words,
        })
    }

    pub fn name(&self) -> &str
        ensures { result.now ≡ self.now.name }
    {
        self.name.as_str()
    }

    pub fn attributes(&self) -> &[Attribute]
        ensures { result.now ≡ self.now.attributes }
    {
        &self.attributes
    }

    pub fn title(&self) -> &str
        ensures { result.now ≡ self.now.title }
    {
        self.title.as_str()
    }

    pub fn words(&self) -> &str
        ensures { result.now ≡ self.now.words }
    {
        self.words.as_str()
    }

    /// Gives it a title, in place of the one that it has.
    pub fn set_title(&mut self, alloc: Global, words: &str) -> Result<(), AllocError>
        ensures { OnOk result (self.new ≡ record self.old { title = words.now }) }
    {
        self.title = String::from_str(alloc, words)?;
        Ok(())
    }

    /// Adds an attribute.
    pub fn set(&mut self, alloc: Global, name: &str, value: &str) -> Result<(), AllocError>
        ensures { OnOk result (self.new ≡ record self.old {
          attributes = self.old.attributes ++ record { name = name.now; value = value.now } ∷ [];
        }) }
    {
        self.attributes.push(Attribute::new(alloc, name, value)?)?;
        Ok(())
    }

    /// Adds an attribute whose value is a number.
    pub fn set_number(&mut self, alloc: Global, name: &str, value: u64) -> Result<(), AllocError>
        ensures { OnOk result (self.new ≡ record self.old {
          attributes = self.old.attributes ++ record { name = name.now; value = decimal value } ∷ [];
        }) }
    {
        let digits = format!(in alloc; "{value}")?;
        self.set(alloc, name, digits.as_str())
    }
}

/// Shapes that belong together: their class, attributes that all of them have, a title that a viewer shows for them,
/// and the shapes, each drawn over those before it.
#[derive(Drop)]
pub struct Group {
    class: String,
    attributes: Vec<Attribute>,
    title: String,
    shapes: Vec<Shape>,
}

impl Model for Group {
    ghost use Rattle.std.specs.Prelude.{string_bytes};
    ghost use Rattle.svg_text.specs.Tree.{Group as GroupValue};

    ghost Value = { GroupValue };

    ghost view = { λ g. record { class = string_bytes g.class; attributes = g.attributes.items; title = string_bytes g.title; shapes = g.shapes.items } };
}

impl Group {
    /// A group of this class, without shapes.
    pub fn new(alloc: Global, class: &str, title: &str) -> Result<Group, AllocError>
        ensures { IfOk result (λ made. made ≡ record { class = class.now; attributes = []; title = title.now; shapes = [] }) }
    {
        let class = String::from_str(alloc, class)?;
        let title = String::from_str(alloc, title)?;
        Ok(Group {
            class,
            attributes: Vec::new(alloc),
            title,
            shapes: Vec::new(alloc),
        })
    }

    /// A group of this class with these shapes.
    pub fn with(
        alloc: Global,
        class: &str,
        title: &str,
        shapes: Vec<Shape>,
    ) -> Result<Group, AllocError>
        ensures { IfOk result (λ made. made ≡ record { class = class.now; attributes = []; title = title.now; shapes = shapes.items }) }
    {
        let class = String::from_str(alloc, class)?;
        let title = String::from_str(alloc, title)?;
        Ok(Group {
            class,
            attributes: Vec::new(alloc),
            title,
            shapes,
        })
    }

    pub fn class(&self) -> &str
        ensures { result.now ≡ self.now.class }
    {
        self.class.as_str()
    }

    pub fn attributes(&self) -> &[Attribute]
        ensures { result.now ≡ self.now.attributes }
    {
        &self.attributes
    }

    pub fn title(&self) -> &str
        ensures { result.now ≡ self.now.title }
    {
        self.title.as_str()
    }

    pub fn shapes(&self) -> &[Shape]
        ensures { result.now ≡ self.now.shapes }
    {
        &self.shapes
    }

    /// Adds an attribute that all its shapes have.
    pub fn set(&mut self, alloc: Global, name: &str, value: &str) -> Result<(), AllocError>
        ensures { OnOk result (self.new ≡ record self.old {
          attributes = self.old.attributes ++ record { name = name.now; value = value.now } ∷ [];
        }) }
    {
        self.attributes.push(Attribute::new(alloc, name, value)?)?;
        Ok(())
    }

    /// Adds a shape over the others.
    pub fn push(&mut self, shape: Shape) -> Result<(), AllocError>
        ensures { OnOk result (self.new ≡ record self.old { shapes = self.old.shapes ++ shape ∷ [] }) }
    {
        self.shapes.push(shape)?;
        Ok(())
    }
}

/// A picture: its size, its title, how its classes look (CSS), and its groups, each drawn over those before it.
#[derive(Drop)]
pub struct Picture {
    width: u64,
    height: u64,
    title: String,
    style: String,
    groups: Vec<Group>,
}

impl Model for Picture {
    ghost use Rattle.std.specs.Prelude.{string_bytes};
    ghost use Rattle.svg_text.specs.Tree.{Picture as PictureValue};

    ghost Value = { PictureValue };

    ghost view = { λ p. record { width = p.width; height = p.height; title = string_bytes p.title; style = string_bytes p.style; groups = p.groups.items } };
}

impl Picture {
    /// A picture of these groups.
    pub fn new(
        alloc: Global,
        width: u64,
        height: u64,
        title: &str,
        style: &str,
        groups: Vec<Group>,
    ) -> Result<Picture, AllocError>
        ensures { IfOk result (λ made. made ≡ record {
          width = width;
          height = height;
          title = title.now;
          style = style.now;
          groups = groups.items;
        }) }
    {
        let title = String::from_str(alloc, title)?;
        let style = String::from_str(alloc, style)?;
        Ok(Picture {
            width,
            height,
            title,
            style,
            groups,
        })
    }

    pub fn width(&self) -> u64
        ensures { result ≡ self.now.width }
    {
        self.width
    }

    pub fn height(&self) -> u64
        ensures { result ≡ self.now.height }
    {
        self.height
    }

    pub fn title(&self) -> &str
        ensures { result.now ≡ self.now.title }
    {
        self.title.as_str()
    }

    pub fn style(&self) -> &str
        ensures { result.now ≡ self.now.style }
    {
        self.style.as_str()
    }

    pub fn groups(&self) -> &[Group]
        ensures { result.now ≡ self.now.groups }
    {
        &self.groups
    }
}
